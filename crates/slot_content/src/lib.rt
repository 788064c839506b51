//! What slots of properties hold.
//!
//! Most values of a world are not asked for for a long time, and a literal takes a small part of the memory that a value takes. So values that were read
//! from a file are kept as their literals, and, from when one is first asked for, as values beside them.
#![tactic(auto)]

pub mod content;
pub mod kept;
mod same;
mod spells;
pub mod writing;
