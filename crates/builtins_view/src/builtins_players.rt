//! The list of all players (Programmer's Manual, "Operations on Player Objects").
//!
//! What is said of a view here is said of each world that it still allows.
pub mod listing;
