//! A value with another item or range, in its place.
ghost use Rattle.std.specs.Prelude.{◌≡◌, ◌<◌, IfOk};
ghost use Rattle.spec_value.specs.Answer.{limited as limited_of};
ghost use Rattle.spec_value.specs.Places.{length_of_list, list_with};
ghost use Rattle.spec_value.specs.Indexing.{set_index_value, set_range_value};
ghost use Rattle.moo_value.specs.Answers.{answer_of};
ghost use Rattle.local_code.specs.Targets.{Changed};

use moo_arith::index::{item_place, set_index, set_range};
use moo_value::answer::{Answer, WEIGHT_LIMIT};
use moo_value::error::MooError;
use moo_value::value::{Shown, Value};
use std::alloc::{AllocError, Global};

/// Puts another item at a place of a list, in place where it has no other owner, or another character at a place of a text. What raises an error
/// changes nothing.
pub fn change_item(
    alloc: Global,
    base: &mut Value,
    place: &Value,
    value: Value,
) -> Result<Result<(), MooError>, AllocError>
    ensures { IfOk result (λ r. Changed r base.old base.new (set_index_value base.old place.now value)) }
{
    let Shown::List(items) = base.shown() else {
        let copy = base.clone()?;
        let answer = set_index(alloc, copy, place, value)?;
        return Ok(becomes(base, answer));
    };
    let Shown::Integer(place) = place.shown() else {
        return Ok(Err(MooError::TypeMismatch));
    };
    let Some(place) = item_place(items, place) else {
        return Ok(Err(MooError::RangeError));
    };
    let changed = change_at(base, place, value)?;
    Ok(changed)
}

// The same at a place that is there.
#[tactic(auto, using(crate::proofs::Changing::undone, crate::proofs::Changing::as_long))]
fn change_at(
    list: &mut Value,
    place: usize,
    value: Value,
) -> Result<Result<(), MooError>, AllocError>
    requires { place < length_of_list list.old }
    ensures { IfOk result (λ r. Changed r list.old list.new (limited_of (list_with list.old place value))) }
{
    let old = list.replace(place, value)?;
    if list.weight() > WEIGHT_LIMIT {
        list.replace(place, old)?;
        return Ok(Err(MooError::LimitExceeded));
    }
    Ok(Ok(()))
}

/// Puts another part from one place to another of a text or a list. What raises an error changes nothing.
pub fn change_range(
    alloc: Global,
    base: &mut Value,
    first: &Value,
    last: &Value,
    value: &Value,
) -> Result<Result<(), MooError>, AllocError>
    ensures { IfOk result (λ r. Changed r base.old base.new (set_range_value base.old first.now last.now value.now)) }
{
    let copy = base.clone()?;
    let answer = set_range(alloc, copy, first, last, value)?;
    Ok(becomes(base, answer))
}

// A value becomes what was answered.
fn becomes(base: &mut Value, answer: Answer) -> Result<(), MooError>
    ensures { Changed result base.old base.new (answer_of answer) }
{
    match answer {
        Ok(value) => {
            *base = value;
            Ok(())
        }
        Err(error) => Err(error),
    }
}
