//! The instruction that forks a task: the task that it starts, which goes into the world, and when it is due.
pub mod body;
pub mod fork;
mod lookup;
pub mod queue;
