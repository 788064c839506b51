//! Built-in functions over tasks and the server (Programmer's Manual, "Operations on Tasks" and "Administrative Operations").
pub mod chance;
pub mod ids;
pub mod server;
pub mod tasks;
