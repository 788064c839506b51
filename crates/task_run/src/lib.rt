//! One step of a world, and lists of steps on one thread.
#![tactic(auto)]

pub mod list;
pub mod rooms;
pub mod step;
