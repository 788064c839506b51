//! The text of a world.
#![tactic(auto)]

pub mod by_threads;
pub mod checkpoint_fields;
pub mod checkpoint_frames;
pub mod checkpoint_objects;
pub mod checkpoint_tasks;
pub mod compare;
pub mod compare_by_threads;
pub mod encode;
mod tasks;
