//! The two programs over handed-in words, files and streams: `moo-play` runs a script of steps over a world.
#![tactic(auto)]

pub mod command_line;
pub mod fixture;
pub mod given;
mod parts;
pub mod play;
pub mod printing;
pub mod words;
