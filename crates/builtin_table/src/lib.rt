//! The built-in functions by their names, with the arguments that they take (Programmer's Manual, "Built-in Functions").
#![tactic(auto)]

pub mod arguments;
pub mod function;
pub mod sort;
pub mod world_function;
