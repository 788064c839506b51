//! Tasks of a step: how one begins, and the outcome of a step (Programmer's Manual, "Tasks").
//!
//! What is said of a view here is said of each world that it still allows.
pub mod begin;
pub mod finish;
pub mod opening;
pub mod outcome;
pub mod system;
