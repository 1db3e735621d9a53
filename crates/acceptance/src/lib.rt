//! An interchange is accepted exactly when the rules of document 01 hold of it. The statement and the theorems stand in specs/; there is no function.

#![tactic(auto)]
