//! What begins with a token, where a reader of tokens reads something.
#![tactic(auto)]

pub mod items;
pub mod level;
pub mod literal;
pub mod operand;
pub mod operators;
pub mod parts;
pub mod steps;
pub mod term;
