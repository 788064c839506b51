//! Rules on a view of a world: names and words, inheritance, permissions, what is read, written and called, and other parents for
//! objects (Programmer's Manual, "The LambdaMOO Database").
//!
//! What is said of a view here is said of each world that it still allows.
#![tactic(auto)]

pub mod access;
pub mod family;
pub mod inherit;
pub mod permissions;
pub mod relatives;
pub mod verb_match;
