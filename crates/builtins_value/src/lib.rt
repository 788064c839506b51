//! The built-in functions of values alone (Programmer's Manual, "Manipulating MOO Values").
//!
//! A call raises `E_ARGS` for a wrong count of arguments, then `E_TYPE` for wrong kinds, then its own errors, and `E_QUOTA` where
//! its result weighs too much.
#![tactic(auto)]

pub mod function;
mod lists;
mod numbers;
mod texts;
mod values;
