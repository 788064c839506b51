//! When a step may run a task, by definitions alone: its world is well formed, and its scene agrees with it.
#![tactic(auto)]

pub mod laws;
