//! The names of slots, along the parents of their objects.
//!
//! Each record knows the nearest one upwards that defines properties, so that what a name costs does not grow with the
//! objects between that define none.
ghost use Rattle.std.specs.Prelude.{◌≡◌, ◌++◌, ◌<◌, ℕ, ℤ, List, [], ◌∷◌, Bool, true, false, Option, Some, None, length, map, slice_index_or, nat_lt, IfOk, IsSomeAnd, OnOk};
ghost use Rattle.std.specs.BTreeMap.{get};
ghost use Rattle.std.specs.Ordering.{int_cmp};
ghost use Rattle.spec_world.specs.World.{World};
ghost use Rattle.upwards.specs.declared.nearest.Nearest.TheVariants.{Unknown};
ghost use Rattle.upwards.specs.Ways.{IsWay, IsKnown, own_nearest, parents_of};
ghost use Rattle.named_objects.specs.Told.{AreObjects};
ghost use Rattle.named_objects.specs.Ways.{IsPlace, AreParents, LeadsUp, numbers_of, defines_of, is_filled, filled_of, names_at};

use crate::record::ObjectRecord;
use moo_value::text::Text;
use std::alloc::{AllocError, Global};
use std::collections::BTreeMap;
use upwards::nearest::{Nearest, Upwards, known_everywhere};

/// What stands above each record, or None where parents go round.
pub fn look_upwards(alloc: Global, records: &[ObjectRecord]) -> Result<Option<Upwards>, AllocError>
    ensures { (w : World) → AreObjects w records.now → IfOk result (λ o. IsSomeAnd o (λ u. LeadsUp w records.now u)) }
{
    let parents = parents(alloc, records)?;
    let nearest = definers(alloc, records)?;
    Ok(known_everywhere(Upwards::new(parents, nearest)))
}

// The record of each record's parent.
fn parents(alloc: Global, records: &[ObjectRecord]) -> Result<Vec<Option<usize>>, AllocError>
    ensures { IfOk result (λ v. AreParents records.now v.items) }
{
    let places = places(alloc, records)?;
    let mut parents = Vec::with_capacity(alloc, records.len())?;
    for record in records {
        let parent = parent_of(record);
        parents.push(places.get(&parent).copied())?;
    }
    Ok(parents)
}

fn parent_of(record: &ObjectRecord) -> i32
    ensures { result ≡ «record».now.header.parent }
{
    record.header.parent
}

// The records by the numbers of their objects.
fn places(alloc: Global, records: &[ObjectRecord]) -> Result<BTreeMap<i32, usize>, AllocError>
    ensures { IfOk result (λ m. (n : ℤ) → IsPlace (numbers_of records.now) n (get int_cmp m n)) }
{
    let mut places = BTreeMap::new(alloc);
    for (place, record) in records.iter().enumerate() {
        places.insert(record.number, place)?;
    }
    Ok(places)
}

// Of each record, that it defines properties itself.
fn definers(alloc: Global, records: &[ObjectRecord]) -> Result<Vec<Nearest>, AllocError>
    ensures count { IfOk result (λ v. length v.items ≡ length records.now) }
    ensures each { IfOk result (λ v. (k : ℕ) → k < length records.now → slice_index_or v.items k Unknown ≡ own_nearest k (slice_index_or (filled_of records.now) k false)) }
{
    let mut nearest = Vec::with_capacity(alloc, records.len())?;
    for (place, record) in records.iter().enumerate() {
        nearest.push(own_nearest(place, record))?;
    }
    Ok(nearest)
}

fn own_nearest(place: usize, record: &ObjectRecord) -> Nearest
    ensures { result ≡ own_nearest place (is_filled «record».now.lists.defines.items) }
{
    if record.lists.defines.is_empty() {
        Nearest::Unknown
    } else {
        Nearest::At(place)
    }
}

/// The names of the properties that are defined on a record and above it, if there are so many.
pub fn names_of(
    alloc: Global,
    records: &[ObjectRecord],
    upwards: &Upwards,
    place: usize,
    count: usize,
) -> Result<Option<Vec<Text>>, AllocError>
    ensures { (way : List ℕ) → length (parents_of upwards.now) ≡ length records.now → IsKnown (filled_of records.now) upwards.now
        → IsWay (parents_of upwards.now) (Some place) way → count ≡ length (names_at (defines_of records.now) way)
        → IfOk result (λ o. IsSomeAnd o (λ v. v.items ≡ names_at (defines_of records.now) way)) }
{
    let mut names = Vec::with_capacity(alloc, count)?;
    let mut definer = upwards.definer(Some(place));
    // each of them has a name at least
    for _definer in 0..count {
        let Some(place) = definer else {
            return Ok(so_many(names, count));
        };
        let Some(record) = records.get(place) else {
            return Ok(None);
        };
        if count.saturating_sub(names.len()) < record.lists.defines.len() {
            return Ok(None);
        }
        push_all(&mut names, &record.lists.defines)?;
        definer = upwards.definer(upwards.above(place));
    }
    match definer {
        Some(_) => Ok(None),
        None => Ok(so_many(names, count)),
    }
}

// Names, if they are so many.
fn so_many(names: Vec<Text>, count: usize) -> Option<Vec<Text>>
    ensures { length names.items ≡ count → IsSomeAnd result (λ v. v.items ≡ names.items) }
{
    if names.len() == count {
        Some(names)
    } else {
        None
    }
}

fn push_all(names: &mut Vec<Text>, more: &[Text]) -> Result<(), AllocError>
    ensures { OnOk result (names.new.items ≡ names.old.items ++ more.now) }
{
    for name in more {
        names.push(name.clone()?)?;
    }
    Ok(())
}
