//! Which line of a text is faulty that is no world's, and which fault it has, by definitions and laws.
#![tactic(auto)]

pub mod fields;
pub mod rows;
pub mod texts;
