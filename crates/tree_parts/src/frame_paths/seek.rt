//! The path of the instruction at an offset, along an outline.
ghost use Rattle.std.specs.Prelude.{◌≡◌, ◌∷◌, ℕ, List, option_map, IfOk};
ghost use Rattle.moo_code.specs.Paths.{past as past_of};
ghost use Rattle.moo_places.specs.Seeking.{one_if as one_if_of, seek as seek_in};
ghost use Rattle.moo_program.specs.declared.outline.Step.{Step as StepOf};
ghost use Rattle.tree_parts.specs.Turns.{behind_close, in_part as in_part_of, led, sought_from};

use moo_program::moo_bytecode::around::next;
use moo_program::outline::Step;
use std::alloc::{AllocError, Global};

/// What is sought in the steps that are left.
#[derive(Clone, Copy)]
pub struct Sought {
    /// How many steps are passed over, of which the last closes a part.
    pub passed: usize,
    /// The number of the next part.
    pub number: usize,
    /// How far the instruction is.
    pub offset: usize,
}

/// Where a step leads.
#[derive(Clone, Copy)]
pub enum Turn {
    Nowhere,
    /// The instruction belongs to what is under way.
    Here,
    /// It is the empty list of the next part.
    AtPart,
    /// It stands in the next part.
    Into(Sought),
    /// It stands behind the step.
    On(Sought),
}

/// The path of the instruction at an offset: the part numbers, the outermost first.
pub fn seek(alloc: Global, steps: &[Step], offset: usize) -> Result<Option<Vec<usize>>, AllocError>
    ensures { IfOk result (λ found. option_map (λ path. path.items) found ≡ seek_in steps.now 0 1 offset) }
{
    let mut path = Vec::new(alloc);
    let mut sought = Sought {
        passed: 0,
        number: 1,
        offset,
    };
    for step in steps {
        let turn = turn_at(step, sought)?;
        match turn {
            Turn::Nowhere => return Ok(None),
            Turn::Here => return Ok(Some(path)),
            Turn::AtPart => {
                path.push(sought.number)?;
                return Ok(Some(path));
            }
            Turn::Into(inside) => {
                path.push(sought.number)?;
                sought = inside;
            }
            Turn::On(behind) => sought = behind,
        }
    }
    Ok(None)
}

fn turn_at(step: &Step, sought: Sought) -> Result<Turn, AllocError>
    ensures { IfOk result (λ t. (ss : List StepOf) → sought_from (step.now ∷ ss) sought ≡ led sought.number ss t) }
{
    if sought.passed > 1 {
        return Ok(Turn::On(Sought {
            passed: sought.passed - 1,
            number: sought.number,
            offset: sought.offset,
        }));
    }
    if sought.passed == 1 {
        return close_passed(step, sought);
    }
    next_step(step, sought)
}

// The last of the steps that are passed over.
fn close_passed(step: &Step, sought: Sought) -> Result<Turn, AllocError>
    requires { sought.passed ≡ 1 }
    ensures { IfOk result (λ t. (ss : List StepOf) → sought_from (step.now ∷ ss) sought ≡ led sought.number ss t) }
{
    match step {
        Step::Close(receives) => behind_part(*receives, sought.number, sought.offset),
        _ => Ok(Turn::Nowhere),
    }
}

fn behind_part(receives: bool, number: usize, offset: usize) -> Result<Turn, AllocError>
    ensures { IfOk result (λ t. (ss : List StepOf) → behind_close receives number offset ss ≡ led number ss t) }
{
    match past(one_if(receives), offset) {
        None => Ok(Turn::Here),
        Some(offset) => Ok(Turn::On(Sought {
            passed: 0,
            number: next(number)?,
            offset,
        })),
    }
}

fn next_step(step: &Step, sought: Sought) -> Result<Turn, AllocError>
    requires { sought.passed ≡ 0 }
    ensures { IfOk result (λ t. (ss : List StepOf) → sought_from (step.now ∷ ss) sought ≡ led sought.number ss t) }
{
    let number = sought.number;
    match step {
        Step::Own => Ok(own(number, sought.offset)),
        Step::Part(opens, count, size) => {
            part(
                *opens,
                *count as usize,
                *size as usize,
                number,
                sought.offset,
            )
        }
        Step::Close(_) => Ok(Turn::Nowhere),
        Step::Gap => Ok(Turn::On(Sought {
            passed: 0,
            number: next(number)?,
            offset: sought.offset,
        })),
    }
}

fn own(number: usize, offset: usize) -> Turn
    ensures { (ss : List StepOf) → seek_in (StepOf.Own ∷ ss) 0 number offset ≡ led number ss result }
{
    match past(1, offset) {
        None => Turn::Here,
        Some(offset) => Turn::On(Sought {
            passed: 0,
            number,
            offset,
        }),
    }
}

// A part with so many steps, and so much code behind its empty list.
fn part(
    opens: bool,
    count: usize,
    size: usize,
    number: usize,
    offset: usize,
) -> Result<Turn, AllocError>
    ensures { IfOk result (λ t. (ss : List StepOf) → seek_in (StepOf.Part opens count size ∷ ss) 0 number offset ≡ led number ss t) }
{
    match past(one_if(opens), offset) {
        None => Ok(Turn::AtPart),
        Some(inside) => in_part(count, size, number, inside),
    }
}

// Behind the empty list of a part.
fn in_part(count: usize, size: usize, number: usize, inside: usize) -> Result<Turn, AllocError>
    ensures { IfOk result (λ t. (ss : List StepOf) → in_part_of count size number inside ss ≡ led number ss t) }
{
    match past(size, inside) {
        None => Ok(Turn::Into(Sought {
            passed: 0,
            number: 1,
            offset: inside,
        })),
        Some(offset) => Ok(Turn::On(Sought {
            passed: next(count)?,
            number,
            offset,
        })),
    }
}

/// An offset behind so many.
#[tactic(auto, using(crate::proofs::Offsets::past_before, crate::proofs::Offsets::past_behind))]
pub fn past(count: usize, offset: usize) -> Option<usize>
    ensures { result ≡ past_of count offset }
{
    if offset < count {
        return None;
    }
    Some(offset - count)
}

/// 1 if so, or 0.
pub fn one_if(so: bool) -> usize
    ensures { result ≡ one_if_of so }
{
    if so { 1 } else { 0 }
}
