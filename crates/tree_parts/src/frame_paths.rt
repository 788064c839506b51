//! Paths of part numbers down the tree of a program, of the instructions of its code, and the places to which they lead.
pub mod paths;
mod reach;
mod seek;
