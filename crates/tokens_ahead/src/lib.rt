//! Takes the tokens that are wanted from a text, one after the other, without memory: spaces, tabs and line ends may stand before each.
#![tactic(auto)]

pub mod front;
pub mod laws;
pub mod literal;
pub mod reserved;
pub mod sign;
pub mod word;
