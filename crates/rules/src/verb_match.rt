//! Which words name a verb, and which stand for a preposition. None of it takes memory.
pub mod prepositions;
