//! Keys by the moments at which they are due, in the order of moments, then keys.
#![tactic(auto)]

mod keys;
mod table;

pub use table::DueTable;
