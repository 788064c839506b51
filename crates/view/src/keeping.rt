//! Slots whose values are kept as their literals.
ghost use Rattle.std.specs.Prelude.{◌≡◌, ◌<◌, IfOk, OnOk, Some, map, vec_len};
ghost use Rattle.std.specs.List.{slice_get};
ghost use Rattle.view.specs.Keeping.{filled};

use crate::slot::Slot;
use moo_value::value::Value;
use slot_content::content::Content;
use slot_content::kept::KeptValues;
use std::alloc::{AllocError, Global};

/// Has the values of slots kept as their literals, where these take less memory. To contracts nothing changes.
pub fn keep_values(alloc: Global, slots: &mut Vec<Slot>) -> Result<(), AllocError>
    ensures { OnOk result (slots.new.items ≡ slots.old.items) }
{
    if !is_one_large(slots) {
        return Ok(());
    }
    let values = values_of(alloc, slots)?;
    let kept = KeptValues::of(alloc, &values)?;
    match kept {
        Some(kept) => keep_all(slots, &kept),
        None => Ok(()),
    }
}

fn is_one_large(slots: &[Slot]) -> bool {
    for slot in slots {
        if slot.content.is_large() {
            return true;
        }
    }
    false
}

// What each slot holds, and 0 for a clear one.
fn values_of(alloc: Global, slots: &[Slot]) -> Result<Vec<Value>, AllocError>
    ensures { IfOk result (λ v. v.items ≡ map filled slots.now) }
{
    let mut values = Vec::with_capacity(alloc, slots.len())?;
    for slot in slots {
        let value = value_of(slot)?;
        values.push(value)?;
    }
    Ok(values)
}

fn value_of(slot: &Slot) -> Result<Value, AllocError>
    ensures { IfOk result (λ v. v ≡ filled slot.now) }
{
    let value = slot.content.clone()?.into_value()?;
    match value {
        Some(value) => Ok(value),
        None => Ok(Value::integer(0)),
    }
}

// Each slot has its value kept at its place.
fn keep_all(slots: &mut Vec<Slot>, values: &KeptValues) -> Result<(), AllocError>
    requires { values.now ≡ map filled slots.old.items }
    ensures { OnOk result (slots.new.items ≡ slots.old.items) }
{
    for place in 0..slots.len() {
        keep_at(slots, values, place)?;
    }
    Ok(())
}

fn keep_at(slots: &mut Vec<Slot>, values: &KeptValues, place: usize) -> Result<(), AllocError>
    requires inside { place < vec_len slots.old }
    requires values { values.now ≡ map filled slots.old.items }
    ensures { OnOk result (slots.new.items ≡ slots.old.items) }
{
    let content = content_kept(&slots[place], values, place)?;
    let slot = &mut slots[place];
    slot.content = content;
    Ok(())
}

// What a slot holds, kept at this place if it takes memory of its own.
fn content_kept(slot: &Slot, values: &KeptValues, place: usize) -> Result<Content, AllocError>
    requires { slice_get values.now place ≡ Some (filled slot.now) }
    ensures { IfOk result (λ content. content ≡ slot.now.content) }
{
    if !slot.content.is_large() {
        return slot.content.clone();
    }
    let Ok(place) = u32::try_from(place) else {
        return slot.content.clone();
    };
    let values = values.clone()?;
    Ok(Content::kept(values, place))
}
