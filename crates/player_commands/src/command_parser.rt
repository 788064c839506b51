//! What a player's line asks for (Programmer's Manual, "The Built-in Command Parser").
//!
//! What is said of a view here is said of each world that it still allows. Each function asks for those facets alone that its
//! answer depends on.
pub mod command;
pub mod parse;
pub mod programming;
pub mod request;
mod sought;
