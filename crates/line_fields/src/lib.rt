//! Fields of a line, and what they spell: numbers, bits and literals.
#![tactic(auto)]

pub mod bits;
pub mod cut;
pub mod fields;
pub mod held;
pub mod number;
mod quoted;
mod spelled;
