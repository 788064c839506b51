//! What waiting tasks hold: each piece of a program under way holds what belongs there, by laws alone.
#![tactic(auto)]

pub mod builtins;
pub mod points;
pub mod trees;
pub mod turns;
pub mod worlds;
