//! Slots, from their lines.
ghost use Rattle.std.specs.Prelude.{◌≡◌, List, [], ◌∷◌, ◌++◌, length, Option, IsTrue, codes};
ghost use Rattle.std.specs.List.{list_all};
ghost use Rattle.spec_value.specs.Datum as datum;
ghost use Rattle.spec_world.specs.World.{Slot as Meant};
ghost use Rattle.spec_world.specs.Checkpoint.{counted, content_text};
ghost use Rattle.spec_checkpoint.specs.Holding.{content_holds};
ghost use Rattle.checkpoint_lines.specs.Gives.{Gives};
ghost use Rattle.checkpoint_lines.specs.Rows.{row_fields, Left, Reads};
ghost use Rattle.spec_faults.specs.Cutting.{field_at};
ghost use Rattle.object_lines.specs.Readable.{is_content_read, is_slot_read};
ghost use Rattle.object_lines.specs.Parts.{one_slot_line, each_slot};
ghost use Rattle.spec_faults.specs.Forms.{slot_form};
ghost use Rattle.spec_faults.specs.Awaited as awaited;
ghost use Rattle.spec_faults.specs.Awaited.{one, again};
ghost use Rattle.checkpoint_lines.specs.declared.fault.FaultKind.TheVariants as kind;
ghost use Rattle.checkpoint_lines.specs.Told.{Checks, Tells};
ghost use Rattle.object_lines.specs.ObjectAwaited.{is_content};

use checkpoint_lines::fault::DecodeError;
use checkpoint_lines::lines::Lines;
use checkpoint_lines::row::Row;
use line_fields::bits::SlotBits;
use moo_value::value::Value;
use slot_content::content::Content;
use std::alloc::Global;
use view::keeping::keep_values;
use view::slot::Slot;

// For how many slots there is room at most before they are read.
const MOST: u64 = 10_000;

/// The slots of an object, without their names, from the next lines.
pub fn next_slots(alloc: Global, lines: &mut Lines<'_>) -> Result<Vec<Slot>, DecodeError>
    ensures reads { (ss : List Meant) (rest : List datum.Text) → IsTrue (list_all is_slot_read ss) → Left lines.old (counted (codes "slots") (length ss) ∷ (each_slot ss ++ rest)) → Reads result lines.new rest (λ v. v.items ≡ ss) }
    ensures tells { Tells result lines.old lines.new (awaited.counted (codes "slots") awaited.each_slot ∷ []) (λ _. []) }
{
    let mut slots = slots_read(alloc, lines)?;
    keep_values(alloc, &mut slots)?;
    Ok(slots)
}

// The same, with their values as they were read.
fn slots_read(alloc: Global, lines: &mut Lines<'_>) -> Result<Vec<Slot>, DecodeError>
    ensures reads { (ss : List Meant) (rest : List datum.Text) → IsTrue (list_all is_slot_read ss) → Left lines.old (counted (codes "slots") (length ss) ∷ (each_slot ss ++ rest)) → Reads result lines.new rest (λ v. v.items ≡ ss) }
    ensures tells { Tells result lines.old lines.new (awaited.counted (codes "slots") awaited.each_slot ∷ []) (λ _. []) }
{
    let count = lines.next_count(alloc, b"slots")?;
    so_many_slots(alloc, lines, count)
}

// So many slots, from the next lines.
fn so_many_slots(alloc: Global, lines: &mut Lines<'_>, count: u64) -> Result<Vec<Slot>, DecodeError>
    ensures reads { (ss : List Meant) (rest : List datum.Text) → IsTrue (list_all is_slot_read ss) → count ≡ length ss → Left lines.old (each_slot ss ++ rest) → Reads result lines.new rest (λ v. v.items ≡ ss) }
    ensures tells { Tells result lines.old lines.new (again count awaited.each_slot ∷ []) (λ _. []) }
{
    let mut slots = Vec::with_capacity(alloc, room(count))?;
    'reading: for _slot in 0..count {
        let slot = next_slot(alloc, lines)?;
        slots.push(slot)?;
    }
    Ok(slots)
}

// For how many slots there is room at first, of so many that are told: with their names they take a quarter more, and fit where these lay.
fn room(count: u64) -> usize {
    let count = usize::try_from(count.min(MOST)).unwrap_or(0);
    count + (count + 3) / 4
}

fn next_slot(alloc: Global, lines: &mut Lines<'_>) -> Result<Slot, DecodeError>
    ensures reads { (s : Meant) (rest : List datum.Text) → IsTrue (is_slot_read s) → Left lines.old (one_slot_line s ∷ rest) → Reads result lines.new rest (λ u. u ≡ s) }
    ensures tells { Tells result lines.old lines.new (one slot_form ∷ []) (λ _. []) }
{
    let row = lines.next_with(alloc, b"slot", 3)?;
    let owner = row.object(1)?;
    let bits = row.slot_bits(2)?;
    let content = content(alloc, &row)?;
    Ok(slot(owner, bits, content))
}

fn slot(owner: i32, bits: SlotBits, content: Option<Value>) -> Slot
    ensures { result ≡ record { content = content; owner = owner; readable = bits.readable; writable = bits.writable; changeable = bits.changeable } }
{
    Slot {
        content: Content::new(content),
        owner,
        readable: bits.readable,
        writable: bits.writable,
        changeable: bits.changeable,
    }
}

// The value of a slot, or none where it is clear.
fn content(alloc: Global, row: &Row<'_>) -> Result<Option<Value>, DecodeError>
    ensures reads { (d : Option datum.Datum) → IsTrue (content_holds d) → IsTrue (is_content_read d) → field_at (row_fields row.now) 3 ≡ content_text d → Gives result (λ o. o ≡ d) }
    ensures tells { Checks result row.now kind.Value (is_content (field_at (row_fields row.now) 3)) }
{
    if row.field(3) == b"clear".as_slice() {
        return Ok(None);
    }
    let value = row.value(alloc, 3)?;
    Ok(Some(value))
}
