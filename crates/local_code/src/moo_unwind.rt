//! What catches a leaving in a part of a program, and how: the handlers around the place of a verb, by the values that their constructs hold.
mod arms;
mod codes;
pub mod offer;
pub mod outward;
pub mod unwind;
