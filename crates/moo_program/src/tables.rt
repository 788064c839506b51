//! What the instructions of a program point into.
use crate::names::Names;
use moo_tree::statement::Statement;

/// The names of its variables, and the bodies of its forks.
#[derive(Drop)]
pub struct Tables<'a> {
    pub names: Names<'a>,
    pub bodies: Vec<&'a [Statement]>,
}
