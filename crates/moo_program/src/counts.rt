//! What the items of a scattering assignment ask for, counted once.
ghost use Rattle.std.specs.Prelude.{◌≡◌, map, true, IfOk};
ghost use Rattle.spec_value.specs.Scatter.{required_count};
ghost use Rattle.moo_program.specs.Counts.{kind_meant, optional_past, optional_before, are_placed};

use crate::emit::narrow;
use crate::instruction::{Part, Scatter, Slot};
use crate::moo_bytecode::around::next;
use crate::room::put;
use std::alloc::{AllocError, Global};

/// These items and defaults, with what is counted of them.
pub fn counted(alloc: Global, items: Vec<Slot>, defaults: Vec<Part>) -> Result<Scatter, AllocError>
    requires { are_placed defaults.items ≡ true }
    ensures items { IfOk result (λ s. s.items ≡ items) }
    ensures defaults { IfOk result (λ s. s.defaults ≡ defaults) }
{
    let required = required(items.as_slice())?;
    let before = before(alloc, items.as_slice())?;
    Ok(Scatter {
        items,
        defaults,
        required,
        before,
    })
}

// How many items are required.
fn required(items: &[Slot]) -> Result<usize, AllocError>
    ensures { IfOk result (λ n. n ≡ required_count (map kind_meant items.now)) }
{
    let mut count = 0;
    for item in items {
        if let Slot::Required(_) = *item {
            count = next(count)?;
        }
    }
    Ok(count)
}

// How many optional items stand before each.
fn before(alloc: Global, items: &[Slot]) -> Result<Vec<u32>, AllocError>
    ensures { IfOk result (λ v. v.items ≡ optional_before 0 (map kind_meant items.now)) }
{
    let mut before = Vec::with_capacity(alloc, items.len())?;
    let mut count = 0;
    for item in items {
        put(&mut before, narrow(count)?)?;
        count = past(count, *item)?;
    }
    Ok(before)
}

// With an item behind so many optional ones.
fn past(count: usize, item: Slot) -> Result<usize, AllocError>
    ensures { IfOk result (λ n. n ≡ optional_past count (kind_meant item)) }
{
    match item {
        Slot::Optional(_) | Slot::Default(_) => next(count),
        Slot::Required(_) | Slot::Rest(_) => Ok(count),
    }
}
