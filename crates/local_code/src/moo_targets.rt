//! Items and ranges of values behind brackets: what stands there, and another value put there in its place.
pub mod change;
pub mod parts;
