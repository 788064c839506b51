//! Scattering assignment: which target gets what.
ghost use Rattle.std.specs.Prelude.{◌≡◌, ◌≤◌, ◌+◌, length, IfOk, map};
ghost use Rattle.spec_value.specs.Datum.{of_list, list as list_of};
ghost use Rattle.spec_value.specs.Scatter.{required_count as required_count_of, optional_count as optional_count_of, has_rest as has_rest_of, first_of, shares as shares_of, scattered, scattered_items};
ghost use Rattle.spec_value.specs.Places.{item_count, first_items, later_items};
ghost use Rattle.moo_arith.specs.Targets.{kind_of, scattering_of};

use moo_value::error::MooError;
use moo_value::items::push_all;
use moo_value::value::{Shown, Value};
use std::alloc::{AllocError, Global};

/// A target of a scattering assignment.
#[derive(Clone, Copy, PartialEq, Eq, Debug)]
pub enum TargetKind {
    /// It always gets an item.
    Required,
    /// It gets an item if there are enough.
    Optional,
    /// It gets a list of the items that are left over.
    Rest,
}

/// What each target gets of a value, in order, or none for an optional one that is left out. A value that is no list raises
/// `E_TYPE`, a list of a wrong length `E_ARGS`.
pub fn scatter(
    alloc: Global,
    targets: &[TargetKind],
    value: &Value,
) -> Result<Result<Vec<Option<Value>>, MooError>, AllocError>
    ensures { IfOk result (λ r. scattering_of r ≡ scattered (map kind_of targets.now) value.now) }
{
    match value.shown() {
        Shown::List(items) => scatter_items(alloc, targets, items),
        _ => Ok(Err(MooError::TypeMismatch)),
    }
}

fn scatter_items(
    alloc: Global,
    targets: &[TargetKind],
    items: &[Value],
) -> Result<Result<Vec<Option<Value>>, MooError>, AllocError>
    ensures { IfOk result (λ r. scattering_of r ≡ scattered_items (map kind_of targets.now) (item_count (of_list items.now)) (of_list items.now)) }
{
    let count = item_count_in(items);
    let required = required_count(targets);
    let optional = optional_count(targets);
    if count < required || !has_rest(targets) && count - required > optional {
        return Ok(Err(MooError::WrongArgumentCount));
    }
    let filled = optional.min(count - required);
    Ok(Ok(shares(alloc, targets, filled, count - required - filled, items)?))
}

// What each target gets, with so many optional ones to fill and so many items for the rest.
fn shares(
    alloc: Global,
    targets: &[TargetKind],
    filled: usize,
    left: usize,
    items: &[Value],
) -> Result<Vec<Option<Value>>, AllocError>
    ensures { IfOk result (λ v. v.items ≡ shares_of (map kind_of targets.now) filled left (of_list items.now)) }
{
    let mut shares = Vec::new(alloc);
    let mut rest = items;
    let mut optional = filled;
    for target in targets {
        match *target {
            TargetKind::Required => {
                shares.push(first(rest)?)?;
                rest = behind(rest, 1);
            }
            TargetKind::Optional => {
                if optional == 0 {
                    shares.push(None)?;
                } else {
                    optional -= 1;
                    shares.push(first(rest)?)?;
                    rest = behind(rest, 1);
                }
            }
            TargetKind::Rest => {
                shares.push(Some(front(alloc, rest, left)?))?;
                rest = behind(rest, left);
            }
        }
    }
    Ok(shares)
}

fn first(items: &[Value]) -> Result<Option<Value>, AllocError>
    ensures { IfOk result (λ o. o ≡ first_of (of_list items.now)) }
{
    match items {
        [item, ..] => Ok(Some(item.clone()?)),
        [] => Ok(None),
    }
}

fn behind(items: &[Value], count: usize) -> &[Value]
    ensures { of_list result.now ≡ later_items count (of_list items.now) }
{
    &items[count.min(items.len())..]
}

fn front(alloc: Global, items: &[Value], count: usize) -> Result<Value, AllocError>
    ensures { IfOk result (λ v. v ≡ list_of (first_items count (of_list items.now))) }
{
    let mut chosen = Vec::new(alloc);
    push_all(&mut chosen, &items[..count.min(items.len())])?;
    Value::list(chosen)
}

fn item_count_in(items: &[Value]) -> usize
    ensures { result ≡ item_count (of_list items.now) }
{
    items.len()
}

fn required_count(targets: &[TargetKind]) -> usize
    ensures count { result ≡ required_count_of (map kind_of targets.now) }
    ensures bound { result ≤ length targets.now }
{
    let mut count = 0;
    for target in targets {
        if matches!(target, TargetKind::Required) {
            count += 1;
        }
    }
    count
}

fn optional_count(targets: &[TargetKind]) -> usize
    ensures count { result ≡ optional_count_of (map kind_of targets.now) }
    ensures bound { result ≤ length targets.now }
{
    let mut count = 0;
    for target in targets {
        if matches!(target, TargetKind::Optional) {
            count += 1;
        }
    }
    count
}

fn has_rest(targets: &[TargetKind]) -> bool
    ensures { result ≡ has_rest_of (map kind_of targets.now) }
{
    for target in targets {
        if matches!(target, TargetKind::Rest) {
            return true;
        }
    }
    false
}
