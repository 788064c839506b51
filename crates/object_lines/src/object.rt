//! Objects as they stand in lines.
ghost use Rattle.std.specs.Prelude.{◌≡◌, ℤ, List, [], ◌∷◌, ◌++◌, length, Some, IsTrue};
ghost use Rattle.std.specs.List.{list_all};
ghost use Rattle.spec_value.specs.Datum as datum;
ghost use Rattle.spec_world.specs.World.{World, Object as Meant, object_at};
ghost use Rattle.spec_world.specs.WellFormed.{IsWellFormed};
ghost use Rattle.spec_world.specs.Checkpoint.{object_lines, each_object};
ghost use Rattle.spec_checkpoint.specs.Holding.{object_holds};
ghost use Rattle.checkpoint_lines.specs.Rows.{Left, Reads};
ghost use Rattle.named_objects.specs.Told.{told, shown_object, AreObjects};
ghost use Rattle.object_lines.specs.Readable.{is_object_read};
ghost use Rattle.object_lines.specs.Parts.{family_lines, AreLists};
ghost use Rattle.spec_faults.specs.Awaited as awaited;
ghost use Rattle.spec_faults.specs.Awaited.{again, group};
ghost use Rattle.checkpoint_lines.specs.Told.{Tells};
ghost use Rattle.object_lines.specs.ObjectAwaited.{family_awaited};

use crate::header::{header, next_flags, next_naming};
use crate::slot::next_slots;
use crate::verb::next_verbs;
use checkpoint_lines::fault::DecodeError;
use checkpoint_lines::lines::Lines;
use named_objects::record::ObjectRecord;
use quick_reader::room::Room;
use std::alloc::Global;
use view::header::Header;
use view::object::Lists;

// The greatest number of an object.
const LAST_OBJECT: i32 = 999_999;

pub(crate) fn next_object(
    alloc: Global,
    room: &mut Room,
    lines: &mut Lines<'_>,
) -> Result<ObjectRecord, DecodeError>
    ensures reads { (w : World) (o : ℤ) (x : Meant) (rest : List datum.Text) → IsWellFormed w → object_at w o ≡ Some x → IsTrue (is_object_read (o, x)) → Left lines.old (object_lines w o x ++ rest) → Reads result lines.new rest (λ r. told r ≡ shown_object w (o, x)) }
    ensures tells { Tells result lines.old lines.new (group awaited.each_object) (λ _. []) }
{
    let number = lines.next_integer(alloc, b"object", 0, LAST_OBJECT)?;
    let family = next_family(alloc, lines)?;
    let slots = next_slots(alloc, lines)?;
    let verbs = next_verbs(alloc, room, lines)?;
    let (header, lists) = family;
    Ok(ObjectRecord {
        number,
        header,
        lists,
        slots,
        verbs,
    })
}

// The header and the lists of an object.
fn next_family(alloc: Global, lines: &mut Lines<'_>) -> Result<(Header, Lists), DecodeError>
    ensures reads { (x : Meant) (rest : List datum.Text) → IsTrue (object_holds x) → Left lines.old (family_lines x ++ rest) → Reads result lines.new rest (λ f. (f.0 ≡ x.header) × AreLists f.1 x) }
    ensures tells { Tells result lines.old lines.new family_awaited (λ _. []) }
{
    let naming = next_naming(alloc, lines)?;
    let children = lines.next_objects(alloc, b"children")?;
    let contents = lines.next_objects(alloc, b"contents")?;
    let flags = next_flags(alloc, lines)?;
    let defines = lines.next_texts(alloc, b"defines")?;
    let lists = Lists {
        children,
        contents,
        defines,
    };
    Ok((header(naming, flags), lists))
}
