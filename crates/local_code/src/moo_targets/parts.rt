//! Parts of values behind brackets.
ghost use Rattle.std.specs.Prelude.{◌≡◌, drop, min, IfOk};
ghost use Rattle.spec_value.specs.Answer.{gives};
ghost use Rattle.moo_value.specs.Answers.{answer_of};
ghost use Rattle.local_code.specs.Targets.{width as width_of, count_in as count_in_of, behind as behind_of, replaced, part_answer, whole_answer, Changed};

use crate::moo_targets::change::{change_item, change_range};
use moo_arith::index::{index, range};
use moo_program::instruction::Bracket;
use moo_value::answer::Answer;
use moo_value::error::MooError;
use moo_value::value::Value;
use std::alloc::{AllocError, Global};

/// How many values stand in brackets, or the greatest number where that is more.
pub fn count_in(brackets: &[Bracket]) -> usize
    ensures { result ≡ min (count_in_of brackets.now) usize.MAX }
{
    let mut count: usize = 0;
    for bracket in brackets {
        count = count.saturating_add(width(*bracket));
    }
    count
}

// How many values stand in one pair.
fn width(bracket: Bracket) -> usize
    ensures { result ≡ width_of bracket }
{
    match bracket {
        Bracket::Item => 1,
        Bracket::Range => 2,
    }
}

// Without the values in brackets.
#[tactic(auto, using(crate::proofs::Behind::dropped_so))]
fn rest<'a>(brackets: &[Bracket], values: &'a [Value]) -> &'a [Value]
    ensures { result.now ≡ drop (count_in_of brackets.now) values.now }
{
    let count = count_in(brackets).min(values.len());
    &values[count..]
}

// What one pair of brackets takes of a value.
fn behind(
    alloc: Global,
    whole: &Value,
    bracket: Bracket,
    values: &[Value],
) -> Result<Answer, AllocError>
    ensures { IfOk result (λ r. answer_of r ≡ behind_of bracket (gives whole.now) values.now) }
{
    match bracket {
        Bracket::Item => match values {
            [place, ..] => index(alloc, whole, place),
            _ => Ok(Err(MooError::TypeMismatch)),
        },
        Bracket::Range => match values {
            [first, last, ..] => range(alloc, whole, first, last),
            _ => Ok(Err(MooError::TypeMismatch)),
        },
    }
}

/// What stands behind brackets, the last ones first, by the values in them. A target's brackets nest no deeper than its tree, so the walk may
/// recurse.
#[tactic(auto, using(crate::proofs::Behind::raised_behind, crate::proofs::Behind::part_behind))]
pub fn part(
    alloc: Global,
    base: &Value,
    brackets: &[Bracket],
    values: &[Value],
) -> Result<Answer, AllocError>
    ensures { IfOk result (λ r. answer_of r ≡ part_answer (gives base.now) brackets.now values.now) }
{
    let [bracket, inner @ ..] = brackets else {
        let copy = base.clone()?;
        return Ok(Ok(copy));
    };
    match part(alloc, base, inner, values)? {
        Ok(whole) => behind(alloc, &whole, *bracket, rest(inner, values)),
        Err(error) => Ok(Err(error)),
    }
}

// Puts another value where one pair of brackets leads.
fn change(
    alloc: Global,
    whole: &mut Value,
    bracket: Bracket,
    values: &[Value],
    value: Value,
) -> Result<Result<(), MooError>, AllocError>
    ensures { IfOk result (λ r. Changed r whole.old whole.new (replaced bracket (gives whole.old) values.now value)) }
{
    match bracket {
        Bracket::Item => match values {
            [place, ..] => {
                let changed = change_item(alloc, whole, place, value)?;
                Ok(changed)
            }
            _ => Ok(Err(MooError::TypeMismatch)),
        },
        Bracket::Range => match values {
            [first, last, ..] => {
                let changed = change_range(alloc, whole, first, last, &value)?;
                Ok(changed)
            }
            _ => Ok(Err(MooError::TypeMismatch)),
        },
    }
}

/// Puts another value where brackets lead, the last ones first. What raises an error changes nothing.
#[tactic(auto, using(crate::proofs::Behind::whole_alone, crate::proofs::Behind::whole_raised, crate::proofs::Behind::whole_refused, crate::proofs::Behind::whole_on))]
pub fn put(
    alloc: Global,
    base: &mut Value,
    brackets: &[Bracket],
    values: &[Value],
    value: Value,
) -> Result<Result<(), MooError>, AllocError>
    ensures { IfOk result (λ r. Changed r base.old base.new (whole_answer (gives base.old) brackets.now values.now value)) }
{
    let [bracket, inner @ ..] = brackets else {
        *base = value;
        return Ok(Ok(()));
    };
    if inner.is_empty() {
        let changed = change(alloc, base, *bracket, values, value)?;
        return Ok(changed);
    }
    let mut whole = match part(alloc, base, inner, values)? {
        Ok(whole) => whole,
        Err(error) => return Ok(Err(error)),
    };
    let changed = change(alloc, &mut whole, *bracket, rest(inner, values), value)?;
    if let Err(error) = changed {
        return Ok(Err(error));
    }
    let stored = put(alloc, base, inner, values, whole)?;
    Ok(stored)
}
