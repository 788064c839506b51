//! Which object a player means (Programmer's Manual, "The Built-in Command Parser": matching of object strings).
//!
//! What is said of a view here is said of each world that it still allows. Each function asks for those facets alone that its
//! answer depends on.
mod fit;
pub mod naming;
mod number;
pub mod place;
mod reach;
mod tally;
