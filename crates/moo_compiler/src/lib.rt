//! Programs as worlds keep them.
//!
//! A `Program` is its canonical text, and, from when it first runs, that program with its code, shared by its owners; to contracts it is its tree.
#![tactic(auto)]

pub mod compile;
pub mod joined;
pub mod program;
mod same;
