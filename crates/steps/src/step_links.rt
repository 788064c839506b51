//! What a step does with links besides opening and closing them: players log in, and lines are collected for a verb's code
//! (Programmer's Manual, "Server Commands and Database Assumptions").
//!
//! What is said of a view here is said of each world that it still allows.
mod coding;
pub mod collecting;
mod faults;
pub mod logins;
pub mod programming;
