//! What was read, without what is too deep: of a tree that is too deep nothing is told but the first place that is, so it need not be kept.
#![tactic(auto)]

pub mod block;
pub mod expression;
pub mod operand;
pub mod shallow;
