//! Pairs of a number and a key: the keys of the entries that have a number, beside their table.
ghost use Rattle.std.specs.Prelude.{◌≡◌, ◌↔◌, ◌<◌, None, IfOk, IsTrue, MatchOption, map, option_map, unwrap_or};
ghost use Rattle.std.specs.List.{AllByRecursion};
ghost use Rattle.world_table.specs.Entries.{first_from};
ghost use Rattle.world.specs.Moved.{moved};
ghost use Rattle.world.specs.Numbered.{numbered};
ghost use Rattle.world.specs.Paired.{keys_of};

use crate::choice::is_at;
use crate::records::number_of;
use due_table::DueTable;
use std::alloc::{AllocError, Global};

/// The pairs where the number of a key is another one. None where it is the same.
pub(crate) fn with_moved(
    pairs: &DueTable,
    key: u64,
    old: Option<u32>,
    new: Option<u32>,
) -> Result<Option<DueTable>, AllocError>
    requires { key < 4294967296 }
    ensures { IfOk result (λ changed. MatchOption changed (old ≡ new) (λ t. t ≡ moved old new key pairs.now)) }
{
    match (old, new) {
        (None, None) => Ok(None),
        (None, Some(new)) => Ok(Some(pairs.with(new, key)?)),
        (Some(old), None) => Ok(Some(pairs.without(old, key)?)),
        (Some(old), Some(new)) if old == new => Ok(None),
        (Some(old), Some(new)) => {
            let others = pairs.without(old, key)?;
            Ok(Some(others.with(new, key)?))
        }
    }
}

/// Other pairs, if there are any.
pub(crate) fn replace(pairs: &mut DueTable, changed: Option<DueTable>)
    ensures { pairs.new ≡ unwrap_or changed pairs.old }
{
    if let Some(changed) = changed {
        *pairs = changed;
    }
}

/// The keys of a number, in order. No pair of another number is passed over.
pub(crate) fn gather_of(
    alloc: Global,
    pairs: &DueTable,
    number: u32,
) -> Result<Vec<i32>, AllocError>
    requires { AllByRecursion (λ e. e.0 < 1048576) (keys_of number pairs.now) }
    ensures { IfOk result (λ keys. keys.items ≡ map (λ e. e.0) (numbered (keys_of number pairs.now))) }
{
    let _sorted = pairs.is_empty();
    let mut keys = Vec::new(alloc);
    let mut key = 0;
    while let Some(found) = next_of(pairs, number, key) {
        keys.push(number_of(found))?;
        key = found + 1;
    }
    Ok(keys)
}

/// Whether these are the keys of a number, in order. It takes no memory, and passes over no pair of another number.
pub(crate) fn is_gathered_of(pairs: &DueTable, number: u32, keys: &[i32]) -> bool
    requires { AllByRecursion (λ e. e.0 < 1048576) (keys_of number pairs.now) }
    ensures { IsTrue result ↔ map (λ e. e.0) (numbered (keys_of number pairs.now)) ≡ keys.now }
{
    let _sorted = pairs.is_empty();
    let mut count = 0;
    let mut key = 0;
    while let Some(found) = next_of(pairs, number, key) {
        if !is_at(keys, count, &number_of(found)) {
            return false;
        }
        count += 1;
        key = found + 1;
    }
    count == keys.len()
}

// The first key of a number that is this one or after it.
fn next_of(pairs: &DueTable, number: u32, key: u64) -> Option<u64>
    ensures { option_map (λ k. (k, number)) result ≡ first_from key (keys_of number pairs.now) }
{
    let _sorted = pairs.is_empty();
    let (found, next) = pairs.next_from(number, key)?;
    if found == number { Some(next) } else { None }
}
