//! What is guessed of the objects along a way, before it is checked.
ghost use Rattle.std.specs.Prelude.{◌≡◌, ◌≤◌, ◌<◌, ◌^◌, ◌+◌, ℕ, ℤ, [], length, IfOk, OnOk, IsTrue};
ghost use Rattle.std.specs.List.{list_all};
ghost use Rattle.world_checks.specs.Guessed.{IsDepth, AllMarked, AllListed, Ranked, MayBeRanked, FallsFrom, Climbed, Settled, BelowAgree, AllPlaced, PlacedBelow};
ghost use Rattle.world_checks.specs.Marks.{may_mark};

use crate::object_checks::way::{Way, down, up};
use crate::table_checks::marks::Marks;
use crate::table_checks::once::put_places;
use std::alloc::{AllocError, Global};
use world::draft::Draft;

/// A rank of each object, higher than that of the object above it, and its place among those below that object. Nothing is promised of either.
#[derive(Drop)]
pub struct Guess {
    pub ranks: Marks,
    pub places: Marks,
}

/// A guess that is right if there is a right one.
pub fn guess_along(
    alloc: Global,
    draft: &Draft,
    numbers: &[i32],
    way: Way,
) -> Result<Guess, AllocError>
    ensures ranks { IfOk result (λ g. AllMarked draft.now → AllListed draft.now numbers.now → (depth : ℤ → ℕ) → IsDepth way draft.now depth → Ranked depth draft.now g.ranks) }
    ensures places { IfOk result (λ g. AllMarked draft.now → AllListed draft.now numbers.now → BelowAgree way draft.now → AllPlaced way draft.now g.places) }
{
    let ranks = ranks(alloc, draft, numbers, way)?;
    let places = places(alloc, draft, numbers, way)?;
    Ok(Guess { ranks, places })
}

fn places(alloc: Global, draft: &Draft, numbers: &[i32], way: Way) -> Result<Marks, AllocError>
    ensures { IfOk result (λ m. AllMarked draft.now → AllListed draft.now numbers.now → BelowAgree way draft.now → AllPlaced way draft.now m) }
{
    let mut places = Marks::new(alloc);
    for number in numbers {
        place_below(draft, way, &mut places, *number)?;
    }
    Ok(places)
}

// Marks what is below an object, if there is one of this number.
fn place_below(draft: &Draft, way: Way, places: &mut Marks, number: i32) -> Result<(), AllocError>
    ensures { OnOk result (AllMarked draft.now → BelowAgree way draft.now → PlacedBelow way draft.now places.old places.new number) }
{
    let Some(object) = draft.object(number) else {
        return Ok(());
    };
    put_places(places, down(way, object))?;
    Ok(())
}

fn ranks(alloc: Global, draft: &Draft, numbers: &[i32], way: Way) -> Result<Marks, AllocError>
    ensures { IfOk result (λ m. AllMarked draft.now → AllListed draft.now numbers.now → (depth : ℤ → ℕ) → IsDepth way draft.now depth → Ranked depth draft.now m) }
{
    let mut ranks = Marks::new(alloc);
    let mut line = Vec::new(alloc);
    for number in numbers {
        let above = climb(draft, way, &mut ranks, &mut line, *number, numbers.len())?;
        settle(&mut ranks, &mut line, above)?;
    }
    Ok(ranks)
}

// Puts the objects from one upwards on the line, to the first that has a rank or is not there; answers that rank, or 0.
// Each gets a rank for the time being, so that a cycle ends the line.
fn climb(
    draft: &Draft,
    way: Way,
    ranks: &mut Marks,
    line: &mut Vec<i32>,
    from: i32,
    most: usize,
) -> Result<usize, AllocError>
    ensures { IfOk result (λ above. AllMarked draft.now → (depth : ℤ → ℕ) → IsDepth way draft.now depth → MayBeRanked depth draft.now ranks.old → line.old.items ≡ [] → depth from ≤ most
        → Climbed depth draft.now ranks.old ranks.new from line.new.items above) }
{
    let mut here = from;
    for _ in 0..most {
        let Some(object) = draft.object(here) else {
            return Ok(0);
        };
        let rank = ranks.get(here);
        if rank > 0 {
            return Ok(rank);
        }
        ranks.put(here, 1)?;
        line.push(here)?;
        here = up(way, object);
    }
    Ok(0)
}

// The objects of the line, the last first, get the ranks behind one.
fn settle(ranks: &mut Marks, line: &mut Vec<i32>, above: usize) -> Result<(), AllocError>
    ensures line { OnOk result (line.new.items ≡ []) }
    ensures ranks { OnOk result ((depth : ℤ → ℕ) (total : ℕ) → FallsFrom depth total line.old.items → above + length line.old.items ≡ total → total < 2 ^ 64 → IsTrue (list_all may_mark line.old.items)
        → Settled depth ranks.old ranks.new line.old.items) }
{
    let mut rank = above;
    while let Some(number) = line.pop() {
        rank = rank.saturating_add(1);
        ranks.put(number, rank)?;
    }
    Ok(())
}
