//! The parts of the constructs of a tree: what each holds while one of them is under way (Programmer's Manual, "The MOO Programming
//! Language").
#![tactic(auto)]

mod expression_parts;
pub mod frame_laws;
pub mod frame_paths;
pub mod frame_places;
pub mod frame_tasks;
pub mod holds;
mod listed;
pub mod node;
pub mod parts;
mod statement_parts;
