//! The syntax floor, ISO 9735 version 4 as document 01 reads it: bytes and segments.

#![tactic(auto)]

pub mod bytes;
pub mod ends;
mod limits;
mod marks;
pub mod segment;
mod texts;
