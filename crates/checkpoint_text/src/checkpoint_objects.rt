//! The lines of a world's objects and links.
pub mod link;
pub mod object;
pub mod shortcut;
mod slot;
mod verb;
