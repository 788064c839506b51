//! Search in texts, and replacement of parts of them (Programmer's Manual, "Operations on Strings").
#![tactic(auto)]

pub mod characters;
pub mod replace;
pub mod search;
mod two_way;
