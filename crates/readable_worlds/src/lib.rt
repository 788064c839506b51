//! Worlds that are read from their texts stay such worlds, whatever happens in them: laws alone.
#![tactic(auto)]

pub mod laws;
