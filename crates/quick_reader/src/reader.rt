//! A text that is read, and what was read of it.
use crate::names::Names;
use crate::room::Room;
use moo_tree::expression::{Argument, Expression, Item};
use moo_tree::statement::{Arm, Branch, Statement, Tree};
use std::alloc::{AllocError, Global};

/// An expression, and how many nodes a path of it has at most.
#[derive(Drop)]
pub struct Found {
    pub expression: Expression,
    pub height: usize,
}

/// A place in a text, and what was read before it and stands in nothing else yet, the last of each kind at the end.
///
/// A text that is not spelled as most programs are, or nests too deep, is refused, and so is each where memory runs out: nothing of it is left then, and
/// what is still made is of no use.
#[derive(Drop)]
pub struct Reader<'a> {
    pub alloc: Global,
    /// What is left of the text.
    pub rest: &'a [u8],
    pub is_refused: bool,
    /// Whether memory ran out.
    pub lacks_memory: bool,
    /// How high the highest of the expressions is that were taken for the next one.
    pub below: usize,
    pub expressions: Vec<Found>,
    pub arguments: Vec<Argument>,
    pub items: Vec<Item>,
    pub statements: Vec<Statement>,
    pub branches: Vec<Branch>,
    pub arms: Vec<Arm>,
    pub names: Names,
}

impl<'a> Reader<'a> {
    /// A text of which nothing was read.
    pub fn new(room: Room, text: &'a [u8]) -> Reader<'a> {
        let Room {
            alloc,
            expressions,
            arguments,
            items,
            statements,
            branches,
            arms,
            names,
        } = room;
        Reader {
            alloc,
            rest: text,
            is_refused: false,
            lacks_memory: false,
            below: 0,
            expressions,
            arguments,
            items,
            statements,
            branches,
            arms,
            names,
        }
    }

    /// The room, for the next text.
    pub fn into_room(self) -> Room {
        let Reader {
            alloc,
            rest: _,
            is_refused: _,
            lacks_memory: _,
            below: _,
            expressions,
            arguments,
            items,
            statements,
            branches,
            arms,
            names,
        } = self;
        Room {
            alloc,
            expressions,
            arguments,
            items,
            statements,
            branches,
            arms,
            names,
        }
    }

    /// Takes the tree of the statements that were read, if they are the whole text.
    pub fn take_tree(&mut self) -> Result<Option<Tree>, AllocError> {
        if self.lacks_memory {
            return Err(AllocError);
        }
        if self.is_refused || !self.rest.is_empty() {
            return Ok(None);
        }
        let statements = self.statements.split_off(0)?;
        Ok(Some(Tree::new(statements)))
    }

    /// Refuses the text.
    pub fn refuse(&mut self) {
        self.is_refused = true;
        self.rest = &[];
    }

    /// Refuses the text since memory ran out.
    #[cold]
    pub fn lack(&mut self) {
        self.lacks_memory = true;
        self.refuse();
    }

    /// What was made, if there was memory for it.
    #[inline(always)]
    pub fn kept<T, F: Drop>(&mut self, made: Result<T, F>) -> Option<T> {
        match made {
            Ok(made) => Some(made),
            Err(_) => {
                self.lack();
                None
            }
        }
    }

    /// Those that were cut off, if there was memory for them.
    pub fn many<T: Drop>(&mut self, cut: Result<Vec<T>, AllocError>) -> Vec<T> {
        match self.kept(cut) {
            Some(all) => all,
            None => Vec::new(self.alloc),
        }
    }
}

/// Puts one more behind others, if there is memory for it.
#[inline(always)]
pub fn put_behind<T: Drop>(all: &mut Vec<T>, one: T) -> Result<(), AllocError> {
    all.reserve(1)?;
    all.push_reserved(one);
    Ok(())
}

/// Takes the last ones away, so many.
pub fn cut_off<T>(all: &mut Vec<T>, count: usize) -> Result<Vec<T>, AllocError> {
    let at = all.len().saturating_sub(count);
    all.split_off(at)
}
