//! Built-in functions that answer without the deeds of a step: those that only ask the world, and those that change it (Programmer's
//! Manual, "Built-in Functions").
//!
//! What is said of a view here is said of each world that it still allows.
pub mod ask;
pub mod change;
