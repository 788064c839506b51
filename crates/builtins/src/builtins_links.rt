//! Built-in functions that act as an object: over its link, and with its permissions (Programmer's Manual, "Operations on Network
//! Connections" and "Operations on Tasks").
//!
//! What is said of a view here is said of each world that it still allows.
pub mod acting;
pub mod links;
pub mod notify;
pub mod players;
