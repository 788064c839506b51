//! Source trees of programs (Programmer's Manual, "The MOO Programming Language").
//!
//! To contracts a tree is plain data: an `Expr`, a `Target`, a `Statement` or a `Program` of the definitions. The tree of a program that
//! was read is at most 100 nodes high, so walks over it may recurse.
#![tactic(auto)]

pub mod expression;
mod same_expression;
mod same_statement;
pub mod statement;
