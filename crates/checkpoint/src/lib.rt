//! Worlds from their texts.
//!
//! The lines of a text make a draft, of which nothing is promised. It becomes a world only if it is found to be well formed,
//! and its own text is, byte by byte, the one that was read.
#![tactic(auto)]

mod compare;
pub mod decode;
mod draft;
pub mod laws;
pub mod world_files;
