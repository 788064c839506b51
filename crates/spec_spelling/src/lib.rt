//! A program is read back from its canonical spelling, by definitions alone: laws of the spelling, the tokens that its characters are cut into
//! and what is read of them.
#![tactic(auto)]

pub mod expressions;
pub mod programs;
