//! The services of an accepted interchange are those of the rows of its reading, whatever else the buffer holds. The theorems stand in specs/; there is no function.

#![tactic(auto)]
