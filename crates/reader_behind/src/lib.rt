//! What goes on behind something that a reader of tokens has found, by what was begun last.
#![tactic(auto)]

pub mod arguments;
pub mod codes;
pub mod expression;
pub mod items;
pub mod operand;
pub mod target;
pub mod value;
