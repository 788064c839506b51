//! The links and the objects of a world, from the lines of its text.
//!
//! Objects are read as they stand, their slots without names. What of a world is read so is told by `is_link_read` and
//! `is_object_read`: its numbers, texts and programs are those of values and trees, values nest no deeper than literals that
//! are read, and sets of prepositions are those that there are.
#![tactic(auto)]

pub mod ahead;
mod header;
pub mod link;
mod object;
pub mod objects;
pub mod pieces;
mod shallow;
mod slot;
mod verb;
