//! The objects of a world, as they stand in lines.
ghost use Rattle.std.specs.Prelude.{◌≡◌, ◌≤◌, List, [], ◌∷◌, ◌++◌, length, IfOk, IsTrue};
ghost use Rattle.std.specs.List.{list_all};
ghost use Rattle.spec_value.specs.Datum as datum;
ghost use Rattle.spec_world.specs.World.{World};
ghost use Rattle.spec_world.specs.WellFormed.{IsWellFormed};
ghost use Rattle.spec_world.specs.Checkpoint.{each_object};
ghost use Rattle.checkpoint_lines.specs.Rows.{Left, Reads};
ghost use Rattle.named_objects.specs.Told.{AreObjects};
ghost use Rattle.object_lines.specs.Readable.{is_object_read};
ghost use Rattle.spec_faults.specs.Awaited as awaited;
ghost use Rattle.spec_faults.specs.Awaited.{again};
ghost use Rattle.checkpoint_lines.specs.Told.{Tells};

use crate::ahead::ObjectsAhead;
use crate::object::next_object;
use checkpoint_lines::fault::DecodeError;
use checkpoint_lines::lines::Lines;
use named_objects::record::ObjectRecord;
use quick_reader::room::Room;
use std::alloc::{AllocError, Global};

/// So many objects, from the next lines. Those that were read before their turn are not read again, where they stand here one behind another.
pub fn next_objects<'a>(
    alloc: Global,
    lines: &mut Lines<'a>,
    count: u64,
    ahead: Vec<ObjectsAhead<'a>>,
) -> Result<Vec<ObjectRecord>, DecodeError>
    ensures reads { (w : World) (rest : List datum.Text) → IsWellFormed w → IsTrue (list_all is_object_read w.objects) → count ≡ length w.objects → Left lines.old (each_object w w.objects ++ rest) → Reads result lines.new rest (λ v. AreObjects w v.items) }
    ensures tells { Tells result lines.old lines.new (again count awaited.each_object ∷ []) (λ _. []) }
{
    let joined = joined(alloc, *lines, count, ahead)?;
    let (_, behind, mut records) = joined.into_parts();
    *lines = behind;
    let done = records.len() as u64;
    let mut room = Room::new(alloc);
    'reading: for _object in done..count {
        let record = next_object(alloc, &mut room, lines)?;
        records.push(record)?;
    }
    Ok(records)
}

// Of objects that were read ahead those that stand at a place, one behind another, and are no more than so many.
fn joined<'a>(
    alloc: Global,
    place: Lines<'a>,
    most: u64,
    ahead: Vec<ObjectsAhead<'a>>,
) -> Result<ObjectsAhead<'a>, AllocError>
    ensures place { IfOk result (λ o. (o.left ≡ place.entry.left.now) × (o.lines ≡ place.entry.count)) }
    ensures most { IfOk result (λ o. o.many ≤ most) }
{
    let mut all = ObjectsAhead::none(alloc, place, total(&ahead))?;
    for objects in ahead {
        all.join(objects, most)?;
    }
    Ok(all)
}

// How many objects were read ahead.
fn total(ahead: &[ObjectsAhead<'_>]) -> usize {
    let mut total: usize = 0;
    for objects in ahead {
        total = total.saturating_add(objects.len());
    }
    total
}
