//! What a task's end tells its player (Programmer's Manual, "Tasks").
pub mod lines;
