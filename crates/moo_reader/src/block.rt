//! Statements that were read, and what they are made of.

use crate::node::Nodes;
use moo_tree::statement::{Arm, Branch, Statement};
use moo_value::text::Text;

/// A `break` or `continue` that no loop around has taken so far. One in the body of a fork is cut off from the loops around it.
#[derive(Drop)]
pub struct Stray {
    pub line: u64,
    pub name: Option<Text>,
    pub cut_off: bool,
}

/// A statement. Strays are kept the last one first.
#[derive(Drop)]
pub struct FoundStatement {
    pub tree: Statement,
    pub nodes: Nodes,
    pub strays: Vec<Stray>,
}

/// Statements, the last one first.
#[derive(Drop)]
pub struct Block {
    pub reversed: Vec<Statement>,
    pub nodes: Nodes,
    pub strays: Vec<Stray>,
}

/// Branches, the last one first, and what is done where no condition is true.
#[derive(Drop)]
pub struct Branches {
    pub reversed: Vec<Branch>,
    pub otherwise: Option<Vec<Statement>>,
    pub nodes: Nodes,
    pub strays: Vec<Stray>,
}

/// Handlers, the last one first.
#[derive(Drop)]
pub struct Arms {
    pub reversed: Vec<Arm>,
    pub nodes: Nodes,
    pub strays: Vec<Stray>,
}
