//! What the text of a world has of tasks that wait.
pub mod told;
