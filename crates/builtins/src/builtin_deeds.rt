//! Calls of built-in functions over a view and the deeds of a step, for the verb that runs (Programmer's Manual, "Built-in Functions").
//!
//! What is said of a view here is said of each world that it still allows.
pub mod acting;
pub mod calling;
pub mod own;
pub mod resuming;
pub mod stages;
