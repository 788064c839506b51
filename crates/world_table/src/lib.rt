//! A table from numbers to shared records, as a tree of shared blocks.
//!
//! A key is cut in groups of five bits, the highest first. Each group picks one of the 32 places of
//! a block, and the place has the block of the next group or, after the last, a record. A block keeps
//! its places only as far as the last that is used. Blocks are shared by their owners: to share a
//! table is to count one more owner of its root, and a change copies the blocks on the way to the
//! changed place alone.
#![tactic(auto)]

mod place;
pub mod revision;
mod table;

pub use table::Table;
