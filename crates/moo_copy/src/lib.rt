//! Copies of trees. Texts and values are shared by a copy and what it was made from, the nodes are not.
#![tactic(auto)]

pub mod expression;
mod loops;
mod parts;
pub mod statement;
