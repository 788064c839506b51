//! The small world that worked rows begin with: it is well formed, and its programs are those of their texts.
#![tactic(auto)]

pub mod fixture;
pub mod texts;
