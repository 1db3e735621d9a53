//! What is written reads back: each written form of a calendar, read as a POP, gives the same days. The theorems stand in specs/; there is no function.

#![tactic(auto)]
