//! The one canonical spelling of a program (Programmer's Manual, "The MOO Programming Language", and `verb_code()`).
#![tactic(auto)]

mod expression;
pub mod level;
mod line;
pub mod name;
pub mod print;
mod statement;
