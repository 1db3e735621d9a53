//! Texts with no service character, and a POP made of them: laws alone, under `specs`.

#![tactic(auto)]
