//! The lines of verbs and built-in functions that wait.
pub mod call;
pub mod each_variable;
mod lent;
pub mod native;
pub mod place;
pub mod program;
mod variables;
