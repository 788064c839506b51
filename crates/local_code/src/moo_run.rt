//! The loop of the machine as far as it asks nothing of the world: instructions one after another, where a run stops, and the verbs
//! that are then under way.
pub mod ahead;
pub mod append;
pub mod argument;
pub mod aside;
pub mod asked;
pub mod building;
pub mod calling;
pub mod constant;
mod item;
mod joining;
pub mod numbers;
pub mod onward;
pub mod parts;
pub mod reckoning;
mod returning;
pub mod simple;
pub mod stopped;
pub mod top;
pub mod tracing;
