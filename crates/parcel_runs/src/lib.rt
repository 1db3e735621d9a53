//! A run of calls: however an interchange is cut into parcels, the rows given out and the final answer are the same, and those of the whole reader. The
//! definitions and the theorems stand in specs/; there is no function.

#![tactic(auto)]
