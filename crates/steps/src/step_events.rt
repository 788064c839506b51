//! Steps: what the server does with a connection that opens, a line, a connection that ends, and a task that is due
//! (Programmer's Manual, "Server Commands and Database Assumptions").
//!
//! What is said of a view here is said of each world that it still allows.
pub mod commands;
pub mod connections;
pub mod lines;
pub mod login;
pub mod play;
pub mod waiting;
