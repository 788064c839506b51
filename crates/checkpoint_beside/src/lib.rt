//! The text of a world, made on a thread of its own while its world goes on.
#![tactic(auto)]

pub mod beside;
pub mod encoder;
