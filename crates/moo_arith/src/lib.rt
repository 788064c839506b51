//! The operators of the MOO language, and indexes, ranges and scattering (Programmer's Manual, "Expressions").
//!
//! Each call answers a value or the error that the operation raises, and `AllocError` where memory runs out.
#![tactic(auto)]

pub mod arithmetic;
pub mod binary;
pub mod index;
pub mod integers;
pub mod scatter;
