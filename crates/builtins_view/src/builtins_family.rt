//! Built-in functions that change an object and all below it (Programmer's Manual, "Operations on Properties").
//!
//! Each takes arguments of the right kinds. What it does is right for every world that the view still allows, and takes time
//! linear in the objects below.
pub mod adding;
pub mod deleting;
mod each;
mod naming;
