//! Sessions: connections over handed-in readers and writers, from bytes to bytes.
#![tactic(auto)]

pub mod draft;
pub mod holding;
mod playing;
pub mod refused;
mod telling;
mod writing;
