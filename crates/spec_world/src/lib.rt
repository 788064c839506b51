//! The meaning of worlds: objects, tasks and links, inheritance, well-formedness, by definitions alone.
#![tactic(auto)]

pub mod inheritance;
pub mod objects;
pub mod slots;
pub mod spec_step;
pub mod spec_view;
pub mod worlds;
