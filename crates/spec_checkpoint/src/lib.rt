//! The text of a world as it is kept in a file: how it is read in one way alone, by definitions and laws.
#![tactic(auto)]

pub mod codes;
pub mod records;
pub mod texts;
