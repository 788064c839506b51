//! Reads programs (Programmer's Manual, "The MOO Programming Language"): from a text to its tree, or to its first fault.
#![tactic(auto)]

pub mod answer;
pub mod ending;
pub mod parse;
pub mod reading;
pub mod terms;
pub mod trim;
