//! The fixture, the small world that worked rows begin with, and larger worlds made from it.
#![tactic(auto)]

pub mod fixture;
mod fixture_verbs;
pub mod objects;
mod room_commands;
mod room_verbs;
pub mod rooms;
mod verbs;
