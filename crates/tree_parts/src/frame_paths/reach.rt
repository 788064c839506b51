//! The place of what stands at a path, along an outline.
ghost use Rattle.std.specs.Prelude.{◌≡◌, ◌∷◌, ◌<◌, ℕ, List, drop, length, slice_index, IfOk};
ghost use Rattle.moo_places.specs.Reaching.{last_from as last_from_of, reach as reach_in};
ghost use Rattle.moo_program.specs.declared.outline.Step.{Step as StepOf};
ghost use Rattle.tree_parts.specs.Turns.{at_part, reached_from, reaches};

use crate::frame_paths::seek::one_if;
use moo_program::moo_bytecode::around::{next, plus};
use moo_program::outline::Step;
use std::alloc::AllocError;

/// What is sought in the steps that are left.
#[derive(Clone, Copy)]
pub struct Way {
    /// How many steps are passed over, of which the last closes a part.
    pub passed: usize,
    /// How many parts on the one is that is sought, counted from 1.
    pub number: usize,
    /// How much code is passed.
    pub base: usize,
}

/// Where a step leads.
#[derive(Clone, Copy)]
pub enum Bend {
    Nowhere,
    /// To the part that is sought: what code is before that behind its empty list, and how much that is.
    Arrives(usize, usize),
    /// Behind the step.
    On(Way),
}

/// The place of the last instruction of what stands at a path.
pub fn reach(steps: &[Step], path: &[usize]) -> Result<Option<usize>, AllocError>
    requires { 0 < length path.now }
    ensures { IfOk result (λ found. found ≡ reach_in steps.now 0 (slice_index path.now 0) (drop 1 path.now) 0) }
{
    let mut depth = 1;
    let mut way = Way {
        passed: 0,
        number: path[0],
        base: 0,
    };
    for step in steps {
        let bend = bend_at(step, way)?;
        match bend {
            Bend::Nowhere => return Ok(None),
            Bend::Arrives(base, size) => {
                if depth == path.len() {
                    return last_from(base, size);
                }
                way = Way {
                    passed: 0,
                    number: path[depth],
                    base,
                };
                depth += 1;
            }
            Bend::On(behind) => way = behind,
        }
    }
    Ok(None)
}

fn last_from(base: usize, size: usize) -> Result<Option<usize>, AllocError>
    ensures { IfOk result (λ last. last ≡ last_from_of base size) }
{
    if size == 0 {
        return Ok(None);
    }
    Ok(Some(plus(base, size - 1)?))
}

fn bend_at(step: &Step, way: Way) -> Result<Bend, AllocError>
    ensures { IfOk result (λ b. (ss : List StepOf) (path : List ℕ) → reached_from (step.now ∷ ss) path way ≡ reaches ss path b) }
{
    if way.passed > 1 {
        return Ok(Bend::On(Way {
            passed: way.passed - 1,
            number: way.number,
            base: way.base,
        }));
    }
    if way.passed == 1 {
        return close_passed(step, way);
    }
    next_step(step, way)
}

// The last of the steps that are passed over.
fn close_passed(step: &Step, way: Way) -> Result<Bend, AllocError>
    requires { way.passed ≡ 1 }
    ensures { IfOk result (λ b. (ss : List StepOf) (path : List ℕ) → reached_from (step.now ∷ ss) path way ≡ reaches ss path b) }
{
    match step {
        Step::Close(receives) => Ok(Bend::On(Way {
            passed: 0,
            number: way.number,
            base: plus(way.base, one_if(*receives))?,
        })),
        _ => Ok(Bend::Nowhere),
    }
}

fn next_step(step: &Step, way: Way) -> Result<Bend, AllocError>
    requires { way.passed ≡ 0 }
    ensures { IfOk result (λ b. (ss : List StepOf) (path : List ℕ) → reached_from (step.now ∷ ss) path way ≡ reaches ss path b) }
{
    match step {
        Step::Own => Ok(Bend::On(Way {
            passed: 0,
            number: way.number,
            base: next(way.base)?,
        })),
        Step::Part(opens, count, size) => {
            let base = plus(way.base, one_if(*opens))?;
            part(*count as usize, *size as usize, way.number, base)
        }
        Step::Close(_) => Ok(Bend::Nowhere),
        Step::Gap => Ok(gap(way.number, way.base)),
    }
}

// A part with so many steps, and so much code behind its empty list, which stands behind so much code.
fn part(count: usize, size: usize, number: usize, base: usize) -> Result<Bend, AllocError>
    ensures { IfOk result (λ b. (ss : List StepOf) (path : List ℕ) → at_part count size number base ss path ≡ reaches ss path b) }
{
    if number == 0 {
        return Ok(Bend::Nowhere);
    }
    if number == 1 {
        return Ok(Bend::Arrives(base, size));
    }
    Ok(Bend::On(Way {
        passed: next(count)?,
        number: number - 1,
        base: plus(base, size)?,
    }))
}

fn gap(number: usize, base: usize) -> Bend
    ensures { (ss : List StepOf) (path : List ℕ) → reach_in (StepOf.Gap ∷ ss) 0 number path base ≡ reaches ss path result }
{
    if number < 2 {
        return Bend::Nowhere;
    }
    Bend::On(Way {
        passed: 0,
        number: number - 1,
        base,
    })
}
