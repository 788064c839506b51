//! A machine that reads tokens as programs, by definitions alone: one step at a time over frames, so that nothing calls itself.
#![tactic(auto)]

pub mod laws;
