//! The text of a world as it is being written: fields, values and lines.
mod lines;
mod list;
mod nested;
pub mod page;
