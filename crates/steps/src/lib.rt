//! One segment's step: a state by value and the segment give the next state and its row, or a refusal.

#![tactic(auto)]

pub mod state;
pub mod step;
