//! Drafts of code.
ghost use Rattle.std.specs.Prelude.{◌≡◌, ◌-◌, [], length, IfOk, OnOk};
ghost use Rattle.moo_program.specs.Drafting.{operation_of, parts_of, reception_of, caught_of, state, with_own, with_close, with_part, with_gap};

use crate::moo_bytecode::around::{next, plus};
use crate::moo_bytecode::operation::{Caught, Operation, Reception};
use crate::room::put;
use std::alloc::{AllocError, Global};

/// An operation, a part, or a part that has no tree.
#[derive(Drop)]
pub enum Item<'a> {
    Own(Operation<'a>),
    /// A part begins: whether with an empty list, the count of its items, and the size of their code.
    Part(bool, usize, usize),
    /// It ends: how its value is received, and what catches a leaving in it.
    Close(Reception, Option<Caught<'a>>),
    Gap,
}

/// A draft, from its last item to the first.
#[derive(Drop)]
pub struct Draft<'a> {
    pub items: Vec<Item<'a>>,
    /// The size of its code.
    pub size: usize,
}

/// How much of a draft there was.
#[derive(Clone, Copy)]
pub struct Mark {
    pub items: usize,
    pub size: usize,
}

impl<'a> Draft<'a> {
    /// Nothing, with room for so many items.
    pub fn new(alloc: Global, room: usize) -> Result<Draft<'a>, AllocError>
        ensures { IfOk result (λ d. state d ≡ ([], 0)) }
    {
        let items = Vec::with_capacity(alloc, room)?;
        Ok(Draft { items, size: 0 })
    }

    /// An operation before what there is.
    #[inline(always)]
    pub fn own(&mut self, operation: Operation<'a>) -> Result<(), AllocError>
        ensures { OnOk result (state self.new ≡ with_own (operation_of operation.entry) (parts_of operation.entry) (state self.old)) }
    {
        let size = next(self.size)?;
        put(&mut self.items, Item::Own(operation))?;
        self.size = size;
        Ok(())
    }

    /// A part without a tree before what there is.
    pub fn gap(&mut self) -> Result<(), AllocError>
        ensures { OnOk result (state self.new ≡ with_gap (state self.old)) }
    {
        put(&mut self.items, Item::Gap)?;
        Ok(())
    }

    /// How much there is.
    pub fn mark(&self) -> Mark
        ensures items { result.items ≡ length self.now.items.items }
        ensures size { result.size ≡ self.now.size }
    {
        Mark {
            items: self.items.len(),
            size: self.size,
        }
    }

    /// The end of a part before what there is.
    #[inline(always)]
    pub fn close(
        &mut self,
        reception: Reception,
        caught: Option<Caught<'a>>,
    ) -> Result<(), AllocError>
        ensures { OnOk result (state self.new ≡ with_close (reception_of reception) (caught_of caught.entry) (state self.old)) }
    {
        let size = match reception {
            Reception::Straight => self.size,
            Reception::Received(_, _, _) => plus(1, self.size)?,
        };
        put(&mut self.items, Item::Close(reception, caught))?;
        self.size = size;
        Ok(())
    }

    /// The start of a part, of what was put since a mark.
    #[inline(always)]
    pub fn open(&mut self, opens: bool, mark: Mark) -> Result<(), AllocError>
        ensures { OnOk result (state self.new ≡ with_part opens (length self.old.items.items - mark.items) (self.old.size - mark.size) (state self.old)) }
    {
        let count = self.items.len().saturating_sub(mark.items);
        let inside = self.size.saturating_sub(mark.size);
        let size = plus(if opens { 1 } else { 0 }, self.size)?;
        put(&mut self.items, Item::Part(opens, count, inside))?;
        self.size = size;
        Ok(())
    }
}
