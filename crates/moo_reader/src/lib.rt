//! What a reader of tokens has read, and the trees that it makes of it.
#![tactic(auto)]

pub mod block;
pub mod build;
pub mod found;
pub mod items;
pub mod node;
pub mod start;
pub mod statement;
pub mod text;
pub mod trim;
