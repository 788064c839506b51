//! Which of a program's instructions belong to which construct.
ghost use Rattle.std.specs.Prelude.{◌≡◌, map, IfOk};
ghost use Rattle.moo_program.specs.Drafting.{item_of};
ghost use Rattle.moo_program.specs.Outline.{step_of};

use crate::emit::narrow;
use crate::moo_bytecode::draft::Item;
use crate::moo_bytecode::operation::Reception;
use crate::room::put;
use std::alloc::{AllocError, Global};

/// A step of an outline. They come in the order of the code.
#[derive(Clone, Copy)]
pub enum Step {
    /// An instruction of the construct that is under way.
    Own,
    /// A part begins: whether with an empty list, how many steps are in it, and how much code behind its list.
    Part(bool, u32, u32),
    /// It ends: whether an instruction receives its value.
    Close(bool),
    /// A part that has no tree.
    Gap,
}

/// The outline of a draft.
pub fn outline(alloc: Global, items: &[Item]) -> Result<Vec<Step>, AllocError>
    ensures { IfOk result (λ v. v.items ≡ map step_of (map item_of items.now)) }
{
    let mut steps = Vec::with_capacity(alloc, items.len())?;
    for i in 0..items.len() {
        let step = made_step(&items[i])?;
        put(&mut steps, step)?;
    }
    Ok(steps)
}

#[inline(always)]
fn made_step(item: &Item) -> Result<Step, AllocError>
    ensures { IfOk result (λ s. s ≡ step_of (item_of item.now)) }
{
    match item {
        Item::Own(_) => Ok(Step::Own),
        Item::Part(opens, count, size) => Ok(Step::Part(*opens, narrow(*count)?, narrow(*size)?)),
        Item::Close(Reception::Straight, _) => Ok(Step::Close(false)),
        Item::Close(Reception::Received(_, _, _), _) => Ok(Step::Close(true)),
        Item::Gap => Ok(Step::Gap),
    }
}
