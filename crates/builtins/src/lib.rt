//! Built-in functions over a view of a world and the deeds of a step (Programmer's Manual, "Built-in Functions").
#![tactic(auto)]

pub mod builtin_calls;
pub mod builtin_deeds;
pub mod builtin_natives;
pub mod builtins_code;
pub mod builtins_links;
pub mod builtins_objects;
pub mod builtins_queue;
pub mod builtins_staged;
