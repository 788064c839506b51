//! What stands in a text behind the tokens of a tree's canonical spelling, on whatever lines they stand: they are taken one by one, without memory.
#![tactic(auto)]

pub mod expression;
pub mod literal;
pub mod statement;
