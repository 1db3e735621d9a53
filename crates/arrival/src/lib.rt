//! Reading an interchange as it arrives: what is known after some bytes, that it does not depend on how they were cut, and that it agrees with the whole reader.
//! The definitions and the theorems stand in specs/; there is no function.

#![tactic(auto)]
