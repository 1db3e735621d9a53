//! Demand 3: however the accounts' calls are shuffled, each gets the same answers and the register ends with the same bytes. Definitions and theorems in specs/, no function.

#![tactic(auto)]
