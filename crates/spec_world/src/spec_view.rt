//! What a step asks of a world and changes in it: questions, answers and changes, by definitions alone.
pub mod laws;
