//! From records of objects to objects.
ghost use Rattle.std.specs.Prelude.{◌≡◌, ℤ, [], map, Some, IfOk, IsSomeAnd, slice_get};
ghost use Rattle.spec_world.specs.World.{World, Object as Meant, object_at};
ghost use Rattle.spec_world.specs.WellFormed.{IsWellFormed};
ghost use Rattle.named_objects.specs.Told.{told, shown_object, object_names, all_named, AreObjects};
ghost use Rattle.named_objects.specs.Ways.{LeadsUp};

use crate::names::{look_upwards, names_of};
use crate::record::ObjectRecord;
use moo_value::text::Text;
use std::alloc::{AllocError, Global};
use upwards::nearest::Upwards;
use view::lists::Names;
use view::object::Object;
use view::slot::Slot;
use view::slots::Slots;
use view::verb::Verbs;

/// The names of the slots of each record; records share them where they can. None where a record has another number of slots than
/// there are properties along its parents, or where parents go round.
pub fn all_names(alloc: Global, records: &[ObjectRecord]) -> Result<Option<Vec<Names>>, AllocError>
    ensures { (w : World) → AreObjects w records.now → IfOk result (λ o. IsSomeAnd o (λ v. v.items ≡ map (λ e. object_names w e.0) w.objects)) }
{
    let found = look_upwards(alloc, records)?;
    match found {
        Some(upwards) => gathered(alloc, records, &upwards),
        None => Ok(None),
    }
}

fn gathered(
    alloc: Global,
    records: &[ObjectRecord],
    upwards: &Upwards,
) -> Result<Option<Vec<Names>>, AllocError>
    ensures { (w : World) → AreObjects w records.now → LeadsUp w records.now upwards.now
        → IfOk result (λ o. IsSomeAnd o (λ v. v.items ≡ map (λ e. object_names w e.0) w.objects)) }
{
    let mut all = Vec::with_capacity(alloc, records.len())?;
    for place in 0..records.len() {
        let names = names_at_place(alloc, records, upwards, place)?;
        match names {
            Some(names) => {
                let names = shared(alloc, &all, upwards.above(place), names)?;
                all.push(names)?;
            }
            None => return Ok(None),
        }
    }
    Ok(Some(all))
}

// Names of a record, from the list of its parent where that is there already and holds the same. An object that defines no
// property has its parent's names.
fn shared(
    alloc: Global,
    all: &[Names],
    parent: Option<usize>,
    names: Vec<Text>,
) -> Result<Names, AllocError>
    ensures { IfOk result (λ n. n ≡ names.items) }
{
    let names = Names::new(alloc, names)?;
    let Some(place) = parent else {
        return Ok(names);
    };
    match all.get(place) {
        Some(above) => same_or_own(above, names),
        None => Ok(names),
    }
}

fn same_or_own(above: &Names, names: Names) -> Result<Names, AllocError>
    ensures { IfOk result (λ n. n ≡ names) }
{
    if above.same(&names) {
        above.clone()
    } else {
        Ok(names)
    }
}

// The names of the slots of a record, if they are as many.
fn names_at_place(
    alloc: Global,
    records: &[ObjectRecord],
    upwards: &Upwards,
    place: usize,
) -> Result<Option<Vec<Text>>, AllocError>
    ensures { (w : World) (o : ℤ) (x : Meant) → AreObjects w records.now → LeadsUp w records.now upwards.now → slice_get w.objects place ≡ Some (o, x)
        → IfOk result (λ n. IsSomeAnd n (λ v. v.items ≡ object_names w o)) }
{
    match records.get(place) {
        Some(record) => names_of(alloc, records, upwards, place, record.slots.len()),
        None => Ok(None),
    }
}

/// The object of a record, with the names of its slots.
pub fn object(alloc: Global, record: ObjectRecord, names: &[Text]) -> Result<Object, AllocError>
    ensures { (w : World) (o : ℤ) (x : Meant) → IsWellFormed w → object_at w o ≡ Some x → told «record» ≡ shown_object w (o, x) → names.now ≡ object_names w o
        → IfOk result (λ y. y ≡ x) }
{
    let ObjectRecord {
        number: _,
        header,
        lists,
        slots,
        verbs,
    } = record;
    let slots = named(alloc, names, slots)?;
    let verbs = Verbs::new(alloc, verbs)?;
    Object::new(alloc, header, lists, slots, verbs)
}

fn named(alloc: Global, names: &[Text], slots: Vec<Slot>) -> Result<Slots, AllocError>
    ensures { IfOk result (λ s. s ≡ all_named [] names.now slots.items) }
{
    let mut all = Slots::with_capacity(alloc, names.len())?;
    let mut left = names;
    for slot in slots {
        match left {
            [name, rest @ ..] => {
                all.put(alloc, name, slot)?;
                left = rest;
            }
            [] => return Ok(all),
        }
    }
    Ok(all)
}
