//! Scripts of steps, as `moo-play` reads them.
#![tactic(auto)]

pub mod fault;
pub mod fields;
pub mod laws;
pub mod number;
pub mod script;
