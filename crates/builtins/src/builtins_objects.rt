//! Built-in functions that change objects (Programmer's Manual, "Fundamental Operations on Objects").
//!
//! Each takes arguments of the right kinds. What it does is right for every world that the view still allows.
pub mod asked;
pub mod chparent;
pub mod departing;
pub mod players;
pub mod recycling;
