//! The lines of slots.
ghost use Rattle.std.specs.Prelude.{◌≡◌, ◌++◌, [], ◌∷◌, Some, OnOk, IfOk, map, option_map};
ghost use Rattle.std.specs.Borrow.{Bor};
ghost use Rattle.spec_world.specs.World.{object_at, Slot as SlotOf};
ghost use Rattle.spec_world.specs.Inherit.{ancestors, line_bound};
ghost use Rattle.spec_world.specs.Checkpoint.{slot_line, slot_lines, slots_along as lines_along, slot_bits, content_text, with_line_ends};
ghost use Rattle.checkpoint_text.specs.CheckpointObjectsLines.{line_of_slot, slots_of};
ghost use Rattle.checkpoint_text.specs.Shortcuts.{ArePassed};

use crate::checkpoint_fields::page::Page;
use crate::checkpoint_objects::shortcut::{Shortcut, beyond, parent};
use moo_value::text::Text;
use slot_content::content::{Content, Shown};
use std::alloc::{AllocError, Global};
use view::object::Object;
use view::slot::Slot;
use world::draft::Draft;

/// Writes the slots of an object: of the properties that it defines, then of those of its parent, and so on.
pub fn put_slots(
    page: &mut Page,
    alloc: Global,
    draft: &Draft,
    shortcuts: &[Shortcut],
    number: i32,
    object: &Object,
) -> Result<(), AllocError>
    requires shortcuts { ArePassed draft.now shortcuts.now }
    requires there { object_at draft.now number ≡ Some object.now }
    ensures { OnOk result (page.new ≡ page.old ++ with_line_ends (slot_lines draft.now number)) }
{
    let found = slots_along(alloc, draft, shortcuts, number, object)?;
    page.put_count("slots", found.len())?;
    put_each_slot(page, &found)?;
    Ok(())
}

// The slots of an object in the order of its ancestors, without those ancestors that define no property.
fn slots_along<'a>(
    alloc: Global,
    draft: &Draft,
    shortcuts: &[Shortcut],
    number: i32,
    object: &'a Object,
) -> Result<Vec<&'a Slot>, AllocError>
    requires shortcuts { ArePassed draft.now shortcuts.now }
    requires there { object_at draft.now number ≡ Some object.now }
    ensures { IfOk result (λ v. map (λ (s : Bor SlotOf). line_of_slot s.now) v.items ≡ lines_along draft.now number (ancestors draft.now number)) }
{
    let mut found = Vec::new(alloc);
    let mut above = number;
    let mut left = bound(draft);
    while left > 0 {
        let Some(ancestor) = draft.object(above) else {
            return Ok(found);
        };
        add_slots(&mut found, ancestor.defines().as_slice(), object)?;
        let next = beyond(shortcuts, parent(ancestor));
        above = next.to;
        left = (left - 1).saturating_sub(u64::from(next.over));
    }
    Ok(found)
}

// How many objects there are at most from one upwards.
fn bound(draft: &Draft) -> u64
    ensures { result ≡ line_bound draft.now }
{
    (i64::from(draft.greatest()) + 1).unsigned_abs()
}

// The slots of an object by the names of properties.
fn add_slots<'a>(
    found: &mut Vec<&'a Slot>,
    names: &[Text],
    object: &'a Object,
) -> Result<(), AllocError>
    ensures { OnOk result (map (λ (s : Bor SlotOf). line_of_slot s.now) found.new.items
        ≡ map (λ (s : Bor SlotOf). line_of_slot s.now) found.old.items ++ slots_of object.now names.now) }
{
    for name in names {
        add_slot(found, object.slots().get(name))?;
    }
    Ok(())
}

// A slot, if there is one.
fn add_slot<'a>(found: &mut Vec<&'a Slot>, slot: Option<&'a Slot>) -> Result<(), AllocError>
    ensures { OnOk result (map (λ (s : Bor SlotOf). line_of_slot s.now) found.new.items
        ≡ map (λ (s : Bor SlotOf). line_of_slot s.now) found.old.items ++ slot_line (option_map (λ s. s.now) slot.entry)) }
{
    if let Some(slot) = slot {
        found.push(slot)?;
    }
    Ok(())
}

fn put_each_slot(page: &mut Page, slots: &[&Slot]) -> Result<(), AllocError>
    ensures { OnOk result (page.new ≡ page.old ++ with_line_ends (map (λ (s : Bor SlotOf). line_of_slot s.now) slots.now)) }
{
    for slot in slots {
        put_slot(page, slot)?;
    }
    Ok(())
}

fn put_slot(page: &mut Page, slot: &Slot) -> Result<(), AllocError>
    ensures { OnOk result (page.new ≡ page.old ++ with_line_ends (line_of_slot slot.now ∷ [])) }
{
    page.put("slot ")?;
    page.put_object(slot.owner)?;
    page.put(" ")?;
    put_bits(page, slot)?;
    page.put(" ")?;
    put_content(page, &slot.content)?;
    page.end_line()
}

#[tactic(auto, using(crate::proofs::Bits::no_slot_bits, crate::proofs::Bits::some_slot_bits))]
fn put_bits(page: &mut Page, slot: &Slot) -> Result<(), AllocError>
    ensures { OnOk result (page.new ≡ page.old ++ slot_bits slot.now) }
{
    if !(slot.readable || slot.writable || slot.changeable) {
        return page.put("-");
    }
    page.put_letter("r", slot.readable)?;
    page.put_letter("w", slot.writable)?;
    page.put_letter("c", slot.changeable)
}

#[tactic(auto, using(crate::proofs::Contents::literal_told))]
fn put_content(page: &mut Page, content: &Content) -> Result<(), AllocError>
    ensures { OnOk result (page.new ≡ page.old ++ content_text content.now) }
{
    match content.shown() {
        Shown::Clear => page.put("clear"),
        Shown::Value(value) => page.put_value(value),
        Shown::Literal(text) => page.put(text),
    }
}
