//! The lines of a world's text, read one by one: fields, numbers, bits, literals and programs.
//!
//! What can be wrong with a line is told by its number and the kind of fault. Of a line's faults the least counts, so
//! fields that are numbers, objects, flags or bits are to be read before those that are literals.
#![tactic(auto)]

pub mod fault;
pub mod lines;
mod program;
pub mod row;
