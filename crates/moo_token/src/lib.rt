//! Cuts the text of a program into its tokens (Programmer's Manual, "The MOO Programming Language").
#![tactic(auto)]

pub mod cutter;
pub mod fault;
pub mod token;
pub mod tokens;
pub mod words;
