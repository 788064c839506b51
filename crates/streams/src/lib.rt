//! Readers and writers whose bytes a contract can name: whole Telnet streams read, whole texts written.
#![tactic(auto)]

pub mod reading;
pub mod sink;
pub mod source;
pub mod writing;
