//! The nearest of some records upwards that is filled.
//!
//! Each record stands at a place, and has another one above it or none. What is found for one record is noted for those on the
//! way to it, so that each record is passed a few times only.
#![tactic(auto)]

pub mod nearest;
