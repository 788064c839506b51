//! Places of instructions in the trees of their programs, and back, along the outline that a program keeps.
#![tactic(auto)]

pub mod laws;
