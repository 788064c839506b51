//! Tasks of a step that run until they stop, and what their end does (Programmer's Manual, "Tasks").
//!
//! What is said of a view here is said of each world that it still allows.
pub mod ending;
pub mod play;
pub mod run;
