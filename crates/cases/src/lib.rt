//! The cases P1 to P10 of document 01: one table, one theorem, in specs/.

#![tactic(auto)]
