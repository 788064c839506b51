//! Steps of a world and their outcomes: what goes into a list of steps, and what comes out of it.
#![tactic(auto)]

pub mod copies;
pub mod list;
pub mod outcome;
pub mod partial;
pub mod stack;
pub mod step;
