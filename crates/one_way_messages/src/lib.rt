//! Each message of an interchange has exactly one arrangement, the one that the reader's rows tell. What is shown stands in specs/,
//! the theorems in proofs/; there is no function.

#![tactic(auto)]
