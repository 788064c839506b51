//! Programs as they run: instructions with slots and places, assembled from a draft.
#![tactic(auto)]

mod assembly;
mod compile;
mod compiled;
pub mod copies;
mod counts;
mod emit;
mod gather;
pub mod handlers;
pub mod instruction;
pub mod moo_bytecode;
pub mod names;
mod open;
pub mod outline;
pub mod program;
mod room;
mod scatter;
pub mod tables;
mod within;
