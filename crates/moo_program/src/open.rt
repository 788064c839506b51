//! Constructs under way while code is assembled.
ghost use Rattle.std.specs.Prelude.{◌≡◌, ◌++◌, ◌∷◌, List, map, IfOk, None};
ghost use Rattle.moo_program.specs.Drafting.{Draught, item_of};
ghost use Rattle.moo_program.specs.Assembling.{place_of, scan, opened as opened_of};
ghost use Rattle.moo_program.specs.Opens.{open_of};

use crate::instruction::Scatter;
use crate::moo_bytecode::around::{next, plus};
use crate::moo_bytecode::draft::Item;
use crate::moo_bytecode::operation::Reception;
use crate::room::put;
use std::alloc::AllocError;
use std::sync::Arc;

/// A construct under way: where its code begins and ends, where its parts begin, and the items of its scattering assignment, once they
/// are known.
#[derive(Drop)]
pub struct Open {
    pub first: usize,
    pub end: usize,
    pub starts: Vec<usize>,
    pub scatter: Option<Arc<Scatter>>,
}

impl Open {
    /// A construct of these items, which begins at a place and has so much code. It uses the memory of a vector.
    pub fn new(
        spare: Vec<usize>,
        items: &[Item],
        first: usize,
        size: usize,
    ) -> Result<Open, AllocError>
        ensures open { IfOk result (λ o. open_of o ≡ opened_of first (map item_of items.now) size) }
        ensures scatter { IfOk result (λ o. o.scatter ≡ None) }
    {
        let end = plus(first, size)?;
        let starts = starts(spare, items, first)?;
        Ok(Open {
            first,
            end,
            starts,
            scatter: None,
        })
    }

    /// Where the part with a number begins; the end for 0.
    #[tactic(auto, using(crate::proofs::Opens::part_place))]
    pub fn place(&self, number: usize) -> usize
        ensures { result ≡ place_of (open_of self.now) number }
    {
        if number == 0 || self.starts.len() < number {
            self.end
        } else {
            self.starts[number - 1]
        }
    }
}

// Where the parts of a construct begin.
fn starts(spare: Vec<usize>, items: &[Item], first: usize) -> Result<Vec<usize>, AllocError>
    ensures { IfOk result (λ v. v.items ≡ scan 0 first (map item_of items.now)) }
{
    let mut starts = spare;
    starts.clear();
    let mut place = first;
    let mut i = 0;
    while i < items.len() {
        let (after, skipped) = pass(&mut starts, place, &items[i])?;
        place = after;
        i = next(plus(i, skipped)?)?;
    }
    Ok(starts)
}

// Past an item: the place behind it, and how many items are within it.
#[inline(always)]
#[tactic(auto, using(std::proofs::lemmas::List::append_assoc))]
fn pass(starts: &mut Vec<usize>, place: usize, item: &Item) -> Result<(usize, usize), AllocError>
    ensures { IfOk result (λ r. (ds : List Draught) → starts.new.items ++ scan r.1 r.0 ds ≡ starts.old.items ++ scan 0 place (item_of item.now ∷ ds)) }
{
    match item {
        Item::Own(_) => Ok((next(place)?, 0)),
        Item::Part(opens, count, size) => {
            put(starts, place)?;
            let code = plus(if *opens { 1 } else { 0 }, *size)?;
            Ok((plus(place, code)?, *count))
        }
        Item::Close(Reception::Straight, _) => Ok((place, 0)),
        Item::Close(Reception::Received(_, _, _), _) => Ok((plus(place, 1)?, 0)),
        Item::Gap => {
            put(starts, place)?;
            Ok((place, 0))
        }
    }
}
