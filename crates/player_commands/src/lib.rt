//! Lines of players: their words and parts, the objects that they name, and what they ask for (Programmer's Manual, "The Built-in Command Parser").
#![tactic(auto)]

pub mod command_lines;
pub mod command_parser;
pub mod object_match;
