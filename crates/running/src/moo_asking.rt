//! The instructions that ask the world or call functions, of a task: where they lead it. Verbs that are found run by their programs for the
//! machine of the whole language.
pub mod argument;
pub mod aside;
pub mod asking;
pub mod functions;
pub mod leading;
pub mod simply;
