//! The meaning of programs: source trees, and the parts of their constructs, by definitions alone.
#![tactic(auto)]

pub mod parsing;
pub mod trees;
