//! A message has one arrangement in the groups at most. Definitions stand in specs/, laws and theorems in proofs/; there is no function.

#![tactic(auto)]
