//! Values stay values: whatever happens in a world of values, it leaves a world of values, by laws alone.
#![tactic(auto)]

pub mod builtins;
pub mod programs;
pub mod turns;
pub mod values;
pub mod worlds;
