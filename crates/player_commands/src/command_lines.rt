//! The words and the parts of a line that a player typed (Programmer's Manual, "The Built-in Command Parser").
mod behind;
mod cutting;
mod one_word;
pub mod parts;
pub mod words;
