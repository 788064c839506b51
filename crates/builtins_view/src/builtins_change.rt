//! Built-in functions that change properties and verbs (Programmer's Manual, "Operations on Properties" and "Operations
//! Involving Verbs").
//!
//! Each takes arguments of the right kinds. What it does is right for every world that the view still allows.
mod asked;
mod bits;
pub mod made;
pub mod properties;
pub mod put;
pub mod specifier;
pub mod verbs;
