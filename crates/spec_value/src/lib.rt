//! The meaning of values: what operators and functions of values answer, by definitions alone.
#![tactic(auto)]

pub mod values;
