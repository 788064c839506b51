//! The lines of tasks.
mod frame;
mod outer;
pub mod task;
