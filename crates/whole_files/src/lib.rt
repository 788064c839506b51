//! Files that are written whole or not at all.
#![tactic(auto)]

pub mod writing;
