//! Built-in functions over the code of verbs, and `eval` (Programmer's Manual, "Operations Involving Verbs" and "Evaluating Expressions").
//!
//! Each takes arguments of the right kinds. What it does is right for every world that the view still allows.
pub mod evaluating;
pub mod faults;
pub mod programming;
pub mod reading;
