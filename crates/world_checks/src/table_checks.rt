//! Checks of tables and lists, of which nothing is promised: numbers that rise, numbers that stand once, names of two lists together.
pub mod marks;
pub mod merge;
pub mod once;
pub mod rise;
