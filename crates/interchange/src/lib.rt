//! The whole reader: the fold of one segment's step over an interchange.

#![tactic(auto)]

mod gather;
mod heads;
mod led;
mod packed;
pub mod reader;
mod rows;
mod run;
mod standing;
pub mod stretch;
pub mod turn;

pub use run::counted;
pub use standing::{is_closed, is_inside};
