//! The objects of a draft, from records of objects.
#![tactic(auto)]

ghost use Rattle.std.specs.Prelude.{◌≡◌, ℤ, [], ◌∷◌, map, reverse, Some, MatchOption, IfOk, IsTrue, OnOk};
ghost use Rattle.spec_world.specs.World.{World, Object as Meant, object_at};
ghost use Rattle.spec_world.specs.Questions.{put_record};
ghost use Rattle.spec_world.specs.WellFormed.{IsWellFormed};
ghost use Rattle.named_objects.specs.Told.{told, shown_object, object_names, AreObjects};

use moo_value::text::Text;
use named_objects::family::{all_names, object};
use named_objects::record::ObjectRecord;
use std::alloc::{AllocError, Global};
use view::change::Change;
use view::lists::Names;
use world::draft::Draft;

/// The objects of some records, into a draft: whether that could be done. It can't where an object has another number of slots
/// than there are properties along its parents, or where parents go round.
pub fn put_objects(
    alloc: Global,
    records: Vec<ObjectRecord>,
    draft: &mut Draft,
) -> Result<bool, AllocError>
    ensures reads { (w : World) → AreObjects w records.items → draft.old.objects ≡ [] → IfOk result (λ done. IsTrue done × (draft.new ≡ record (draft.old) { objects = w.objects })) }
{
    let found = all_names(alloc, &records)?;
    match found {
        Some(names) => {
            put_each(alloc, records, &names, draft)?;
            Ok(true)
        }
        None => Ok(false),
    }
}

fn put_each(
    alloc: Global,
    records: Vec<ObjectRecord>,
    names: &[Names],
    draft: &mut Draft,
) -> Result<(), AllocError>
    ensures { (w : World) → AreObjects w records.items → names.now ≡ map (λ e. object_names w e.0) w.objects → draft.old.objects ≡ []
        → OnOk result (draft.new ≡ record (draft.old) { objects = w.objects }) }
{
    let mut left = names;
    let mut records = backwards(records);
    'putting: while let Some(record) = records.pop() {
        let Some((names, rest)) = first_names(left) else {
            return Ok(());
        };
        put_one(alloc, record, names, draft)?;
        left = rest;
        let_room_go(&mut records);
    }
    Ok(())
}

// Records from the last to the first.
fn backwards(mut records: Vec<ObjectRecord>) -> Vec<ObjectRecord>
    ensures { result.items ≡ reverse records.items }
{
    records.reverse();
    records
}

// Lets go of the room of those that are no more there, when it is an eighth of it.
fn let_room_go(records: &mut Vec<ObjectRecord>)
    ensures { records.new.items ≡ records.old.items }
{
    if records.len() < records.capacity() - records.capacity() / 8 {
        records.shrink_to_fit();
    }
}

fn first_names(names: &[Names]) -> Option<(&[Text], &[Names])>
    ensures { MatchOption result (names.now ≡ []) (λ p. names.now ≡ p.0.now ∷ p.1.now) }
{
    match names {
        [] => None,
        [first, rest @ ..] => Some((first.as_slice(), rest)),
    }
}

// The object of a record, with the names of its slots.
fn put_one(
    alloc: Global,
    record: ObjectRecord,
    names: &[Text],
    draft: &mut Draft,
) -> Result<(), AllocError>
    ensures { (w : World) (o : ℤ) (x : Meant) → IsWellFormed w → object_at w o ≡ Some x → told «record» ≡ shown_object w (o, x) → names.now ≡ object_names w o
        → OnOk result (draft.new ≡ record (draft.old) { objects = put_record draft.old.objects o (Some x) }) }
{
    let number = record.number;
    let object = object(alloc, record, names)?;
    draft.put(Change::Object(number, Some(object)))
}
