//! What a reader of tokens has begun, what it reads next, and the tokens that are left.
#![tactic(auto)]

pub mod allowed;
pub mod begun;
pub mod ends;
pub mod frame;
pub mod left;
pub mod lines;
pub mod list;
pub mod number;
pub mod state;
pub mod words;
