//! Built-in functions over objects, properties and verbs (Programmer's Manual, "Manipulating Objects").
//!
//! Each takes arguments of the right kinds. What it does is right for every world that the view still allows.
pub mod objects;
pub mod own_verb;
pub mod properties;
mod specifier;
pub mod values;
pub mod verbs;
