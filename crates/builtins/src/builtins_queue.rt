//! Built-in functions over tasks that wait (Programmer's Manual, "Operations on Tasks").
//!
//! What is said of a view here is said of each world that it still allows.
pub mod callers;
pub mod kill;
pub mod listing;
mod owners;
pub mod resume;
