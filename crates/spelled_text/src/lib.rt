//! The tree of a text that is its canonical spelling, or has the same tokens, which is quickly found.
#![tactic(auto)]

mod same_tokens;
mod spelling;

pub use same_tokens::{has_its_tokens, quickly_read};
pub use spelling::{FoundTree, is_spelling, spelled};
