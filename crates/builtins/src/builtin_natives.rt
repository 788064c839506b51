//! The built-in functions, as tasks call them (Programmer's Manual, "Built-in Functions").
pub mod builtins;
mod functions;
mod perform;
