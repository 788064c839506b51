//! What a draft gets from the lines that stand before the tasks: the front, the links and the objects.
#![tactic(auto)]

ghost use Rattle.std.specs.Prelude.{◌≡◌, ◌↔◌, ◌≤◌, List, [], ◌∷◌, ◌++◌, length, Some, OnOk, IsTrue, codes};
ghost use Rattle.std.specs.List.{list_all};
ghost use Rattle.spec_value.specs.Datum as datum;
ghost use Rattle.spec_world.specs.World.{World};
ghost use Rattle.spec_world.specs.Questions.{put_record};
ghost use Rattle.spec_world.specs.WellFormed.{IsWellFormed};
ghost use Rattle.spec_world.specs.Checkpoint.{counted, link_lines, each_object};
ghost use Rattle.spec_checkpoint.specs.Records.{link_holds};
ghost use Rattle.checkpoint_lines.specs.Rows.{Left, Reads};
ghost use Rattle.object_lines.specs.Readable.{is_link_read, is_object_read};
ghost use Rattle.draft_lines.specs.Front.{front_lines};
ghost use Rattle.spec_faults.specs.Forms.{next_form, greatest_form, ending_form};
ghost use Rattle.spec_faults.specs.Awaited as awaited;
ghost use Rattle.spec_faults.specs.Awaited.{first_line, one, again};
ghost use Rattle.checkpoint_lines.specs.Told.{Tells};

use checkpoint_lines::fault::{DecodeError, FaultKind};
use checkpoint_lines::lines::Lines;
use draft_objects::put_objects;
use object_lines::ahead::ObjectsAhead;
use object_lines::link::next_link;
use object_lines::objects::next_objects;
use std::alloc::{AllocError, Global};
use view::change::Change;
use view::link::Link;
use world::draft::Draft;

// The greatest number of an object, and the last number that the next step can have.
const LAST_OBJECT: i32 = 999_999;

const LAST_NEXT: u64 = 33_554_432;

/// What stands before the links: what the text is, the next step's number, the greatest number of an object, and whether the
/// server is to end.
pub fn read_front(
    alloc: Global,
    lines: &mut Lines<'_>,
    draft: &mut Draft,
) -> Result<(), DecodeError>
    ensures reads { (w : World) (rest : List datum.Text) → IsWellFormed w → draft.old.next ≡ 1 → Left lines.old (front_lines w ++ rest)
        → Reads result lines.new rest (λ _. draft.new ≡ record (draft.old) { greatest = w.greatest; next = w.next; ending = w.ending }) }
    ensures tells { Tells result lines.old lines.new (first_line ∷ one next_form ∷ one greatest_form ∷ one ending_form ∷ []) (λ _. []) }
{
    read_header(lines)?;
    let next = lines.next_number(alloc, b"next", 1, LAST_NEXT)?;
    let greatest = lines.next_integer(alloc, b"greatest", -1, LAST_OBJECT)?;
    let is_ending = lines.next_flag(alloc, b"ending")?;
    set_front(draft, next, greatest, is_ending)?;
    Ok(())
}

fn set_front(draft: &mut Draft, next: u64, greatest: i32, is_ending: bool) -> Result<(), AllocError>
    ensures { draft.old.next ≡ 1 → 1 ≤ next → next ≤ 33554432 → OnOk result (draft.new ≡ record (draft.old) { greatest = greatest; next = next; ending = is_ending }) }
{
    draft.put(Change::Next(next))?;
    draft.set_greatest(greatest);
    draft.put(Change::Ending(is_ending))
}

fn read_header(lines: &mut Lines<'_>) -> Result<(), DecodeError>
    ensures reads { (rest : List datum.Text) → Left lines.old (codes "MOO-CHECKPOINT 1" ∷ rest) → Reads result lines.new rest (λ _. Unit {0}) }
    ensures tells { Tells result lines.old lines.new (first_line ∷ []) (λ _. []) }
{
    let line = lines.next_line()?;
    if is_header(line) {
        Ok(())
    } else {
        Err(lines.fault(FaultKind::Header))
    }
}

// Whether the first line says what the text is, and the number of its format.
fn is_header(line: &[u8]) -> bool
    ensures { IsTrue result ↔ line.now ≡ codes "MOO-CHECKPOINT 1" }
{
    match line {
        b"MOO-CHECKPOINT 1" => true,
        _ => false,
    }
}

/// The links, with their count before them.
pub fn read_links(
    alloc: Global,
    lines: &mut Lines<'_>,
    draft: &mut Draft,
) -> Result<(), DecodeError>
    ensures reads { (w : World) (rest : List datum.Text) → IsWellFormed w → IsTrue (list_all link_holds w.links) → draft.old.links ≡ [] → Left lines.old (counted (codes "links") (length w.links) ∷ (link_lines w.links ++ rest))
        → Reads result lines.new rest (λ _. draft.new ≡ record (draft.old) { links = w.links }) }
    ensures tells { Tells result lines.old lines.new (awaited.counted (codes "links") awaited.each_link ∷ []) (λ _. []) }
{
    let count = lines.next_count(alloc, b"links")?;
    so_many_links(alloc, lines, draft, count)
}

fn so_many_links(
    alloc: Global,
    lines: &mut Lines<'_>,
    draft: &mut Draft,
    count: u64,
) -> Result<(), DecodeError>
    ensures reads { (w : World) (rest : List datum.Text) → IsWellFormed w → IsTrue (list_all is_link_read w.links) → draft.old.links ≡ [] → count ≡ length w.links → Left lines.old (link_lines w.links ++ rest)
        → Reads result lines.new rest (λ _. draft.new ≡ record (draft.old) { links = w.links }) }
    ensures tells { Tells result lines.old lines.new (again count awaited.each_link ∷ []) (λ _. []) }
{
    'reading: for _link in 0..count {
        let entry = next_link(alloc, lines)?;
        put_link(entry, draft)?;
    }
    Ok(())
}

// A link with its number.
fn put_link(entry: (i32, Link), draft: &mut Draft) -> Result<(), AllocError>
    ensures { OnOk result (draft.new ≡ record (draft.old) { links = put_record draft.old.links entry.0 (Some entry.1) }) }
{
    let (number, link) = entry;
    draft.put(Change::Link(number, Some(link)))
}

/// The objects, with their count before them: whether all of them could be made of their lines. Some may have been read before their turn.
pub fn read_objects<'a>(
    alloc: Global,
    lines: &mut Lines<'a>,
    draft: &mut Draft,
    ahead: Vec<ObjectsAhead<'a>>,
) -> Result<bool, DecodeError>
    ensures reads { (w : World) (rest : List datum.Text) → IsWellFormed w → IsTrue (list_all is_object_read w.objects) → draft.old.objects ≡ [] → Left lines.old (counted (codes "objects") (length w.objects) ∷ (each_object w w.objects ++ rest))
        → Reads result lines.new rest (λ done. IsTrue done × (draft.new ≡ record (draft.old) { objects = w.objects })) }
    ensures tells { Tells result lines.old lines.new (awaited.counted (codes "objects") awaited.each_object ∷ []) (λ _. []) }
{
    let count = lines.next_count(alloc, b"objects")?;
    let records = next_objects(alloc, lines, count, ahead)?;
    let done = put_objects(alloc, records, draft)?;
    Ok(done)
}
