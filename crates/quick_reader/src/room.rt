//! What a reader keeps for the next text.
use crate::names::Names;
use crate::reader::Found;
use moo_tree::expression::{Argument, Item};
use moo_tree::statement::{Arm, Branch, Statement};
use std::alloc::Global;

/// Room for what is read of a text, and the names that were read.
///
/// Who reads many texts one after the other hands the same room to each reading: its memory is asked for once, and names that come again in another text
/// share their characters.
#[derive(Drop)]
pub struct Room {
    pub(crate) alloc: Global,
    pub(crate) expressions: Vec<Found>,
    pub(crate) arguments: Vec<Argument>,
    pub(crate) items: Vec<Item>,
    pub(crate) statements: Vec<Statement>,
    pub(crate) branches: Vec<Branch>,
    pub(crate) arms: Vec<Arm>,
    pub(crate) names: Names,
}

impl Room {
    /// No room yet, and no name.
    pub fn new(alloc: Global) -> Room {
        Room {
            alloc,
            expressions: Vec::new(alloc),
            arguments: Vec::new(alloc),
            items: Vec::new(alloc),
            statements: Vec::new(alloc),
            branches: Vec::new(alloc),
            arms: Vec::new(alloc),
            names: Names::new(alloc),
        }
    }
}
