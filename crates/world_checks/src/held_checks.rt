//! Names that a program can write.
pub mod name;
