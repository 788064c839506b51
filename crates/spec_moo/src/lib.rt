//! The meaning of the whole language: turns, segments and built-in functions, by definitions alone.
#![tactic(auto)]

pub mod holding;
pub mod segments;
pub mod variables;
pub mod worlds;
