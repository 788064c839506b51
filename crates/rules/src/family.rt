//! The objects below one (Programmer's Manual, "The LambdaMOO Database": children).
//!
//! What is said of a view here is said of each world that it still allows.
pub mod below;
pub mod losing;
