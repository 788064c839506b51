//! One step of a reader of tokens.
#![tactic(auto)]

pub mod found;
pub mod step;
