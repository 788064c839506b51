//! Rows of tables of shared blocks.
#![tactic(auto)]

#[cfg(test)]
mod due;
#[cfg(test)]
mod tables;
