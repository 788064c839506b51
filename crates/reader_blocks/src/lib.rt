//! Statements as a reader of tokens reads them: what begins one, and what goes on behind its parts.
#![tactic(auto)]

pub mod begin;
pub mod block;
pub mod body;
pub mod branches;
pub mod heads;
pub mod leaving;
pub mod statement;
pub mod strays;
