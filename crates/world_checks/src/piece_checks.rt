//! Whether a verb that waits fits: its variables and what it holds (Programmer's Manual, "The MOO Programming Language").
pub mod fit;
mod variables;
