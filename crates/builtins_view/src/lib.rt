//! Built-in functions that need no more than a view of a world (Programmer's Manual, "Built-in Functions").
#![tactic(auto)]

pub mod builtin_requests;
pub mod builtins_change;
pub mod builtins_family;
pub mod builtins_players;
pub mod builtins_task;
pub mod builtins_world;
pub mod reparenting;
