//! The variables of a verb in the order of their names.
ghost use Rattle.std.specs.Prelude.{◌≡◌, ◌<◌, ◌≤◌, ℕ, List, IfOk, IfErr, OnOk, IsTrue, Some, map, option_map, length, insert, slice_get, slice_set, if◌then◌else◌};
ghost use Rattle.std.specs.Borrow.{Bor};
ghost use Rattle.std.specs.List.{list_all};
ghost use Rattle.spec_value.specs.Datum.{Datum, Text as TextOf, is_text};
ghost use Rattle.spec_value.specs.Table.{with_name};
ghost use Rattle.spec_world.specs.WellFormed.{has_name};
ghost use Rattle.moo_code.specs.Slots.{others as others_of, variables_over};
ghost use Rattle.moo_program.specs.Names.{known};
ghost use Rattle.moo_task.specs.Frames.{kept_of};
ghost use Rattle.moo_task.specs.Variables.{variable_of};
ghost use Rattle.checkpoint_text.specs.CheckpointFramesLines.{lent_variables, with_value};

use crate::checkpoint_frames::lent::Lent;
use moo_program::names::{STARTING_NAMES, count_slots, has_slot_among};
use moo_task::frame::Frame;
use moo_task::variables::{Variable, value_in};
use moo_value::text::Text;
use moo_value::value::Value;
use std::alloc::{AllocError, Global};
use std::cmp::Ordering;

/// The variables of a verb that have values, in the order of their names.
pub fn variables<'a>(alloc: Global, frame: &'a Frame) -> Result<Vec<Lent<'a>>, AllocError>
    ensures { IfOk result (λ v. lent_variables v.items ≡ (kept_of frame.now).variables) }
{
    let names = frame.program.names();
    let mut found = others(alloc, names, frame.further.as_slice())?;
    add_slots(&mut found, names, &frame.state.slots)?;
    Ok(found)
}

// The variables that have no slot, where these are a program's own names.
fn others<'a>(
    alloc: Global,
    own: &[Text],
    further: &'a [Variable],
) -> Result<Vec<Lent<'a>>, AllocError>
    ensures { IfOk result (λ v. lent_variables v.items ≡ others_of (known own.now) (map variable_of further.now)) }
{
    let mut found = Vec::new(alloc);
    let mut left = further.len();
    while left > 0 {
        left -= 1;
        put_other(&mut found, own, &further[left])?;
    }
    Ok(found)
}

// A variable, unless it has a slot.
fn put_other<'a>(
    found: &mut Vec<Lent<'a>>,
    own: &[Text],
    variable: &'a Variable,
) -> Result<(), AllocError>
    ensures { let x = variable_of variable.now in OnOk result (lent_variables found.new.items
        ≡ (if has_name (known own.now) x.0 then lent_variables found.old.items else with_name (lent_variables found.old.items) x.0 x.1)) }
{
    let name = &variable.name;
    if has_slot_among(own, name.as_str()) {
        return Ok(());
    }
    name.know();
    put(found, name.as_str(), &variable.value)
}

// Those in slots too.
fn add_slots<'a>(
    found: &mut Vec<Lent<'a>>,
    own: &'a [Text],
    slots: &'a [Option<Value>],
) -> Result<(), AllocError>
    ensures { OnOk result (lent_variables found.new.items ≡ variables_over (lent_variables found.old.items) (known own.now) slots.now) }
{
    let mut left = count_slots(own).min(slots.len());
    while left > 0 {
        left -= 1;
        put_slot(found, own, left, value_in(slots, left))?;
    }
    Ok(())
}

// The variable of a slot, if it has a value.
fn put_slot<'a>(
    found: &mut Vec<Lent<'a>>,
    own: &'a [Text],
    slot: usize,
    value: Option<&'a Value>,
) -> Result<(), AllocError>
    requires { slot < length (known own.now) }
    ensures { OnOk result ((x : TextOf) → slice_get (known own.now) slot ≡ Some x
        → lent_variables found.new.items ≡ with_value (lent_variables found.old.items) x (option_map (λ v. v.now) value.entry)) }
{
    match value {
        Some(value) => put(found, name_at(own, slot), value),
        None => Ok(()),
    }
}

// The name of a slot.
#[tactic(auto, using(moo_program::proofs::Slots::known_count))]
fn name_at(own: &[Text], slot: usize) -> &str
    requires { slot < length (known own.now) }
    ensures name { slice_get (known own.now) slot ≡ Some result.now }
    ensures allowed { IsTrue (is_text result.now) }
{
    if slot < STARTING_NAMES.len() {
        starting_name(&STARTING_NAMES, slot)
    } else {
        own_name(own, slot - STARTING_NAMES.len())
    }
}

fn starting_name<'a>(names: &[&'a str], slot: usize) -> &'a str
    requires within { slot < length names.now }
    requires allowed { IsTrue (list_all (λ (s : Bor (List ℕ)). is_text s.now) names.now) }
    ensures name { slice_get (map (λ (s : Bor (List ℕ)). s.now) names.now) slot ≡ Some result.now }
    ensures allowed { IsTrue (is_text result.now) }
{
    names[slot]
}

fn own_name(names: &[Text], place: usize) -> &str
    requires { place < length names.now }
    ensures name { slice_get names.now place ≡ Some result.now }
    ensures allowed { IsTrue (is_text result.now) }
{
    let name = &names[place];
    name.know();
    name.as_str()
}

// Another value of a variable, or one variable more.
fn put<'a>(entries: &mut Vec<Lent<'a>>, name: &'a str, value: &'a Value) -> Result<(), AllocError>
    requires { IsTrue (is_text name.now) }
    ensures { OnOk result (lent_variables entries.new.items ≡ with_name (lent_variables entries.old.items) name.now value.now) }
{
    match spot(entries, name) {
        Ok(index) => entries[index] = Lent { name, value },
        Err(index) => entries.insert(index, Lent { name, value })?,
    }
    Ok(())
}

// Where the variable of a name stands, or else before which one it is to come.
fn spot(entries: &[Lent<'_>], name: &str) -> Result<usize, usize>
    ensures there { IfOk result (λ i. (i < length entries.now)
        × ((v : Datum) → with_name (lent_variables entries.now) name.now v ≡ slice_set (lent_variables entries.now) i (name.now, v))) }
    ensures before { IfErr result (λ i. (i ≤ length entries.now)
        × ((v : Datum) → with_name (lent_variables entries.now) name.now v ≡ insert (lent_variables entries.now) i (name.now, v))) }
{
    for (index, entry) in entries.iter().enumerate() {
        match name.as_bytes().cmp(entry.name.as_bytes()) {
            Ordering::Less => return Err(index),
            Ordering::Equal => return Ok(index),
            Ordering::Greater => {}
        }
    }
    Err(entries.len())
}
