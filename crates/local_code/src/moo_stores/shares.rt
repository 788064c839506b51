//! What the items of a scattering assignment get, and which of them want their defaults.
ghost use Rattle.std.specs.Prelude.{◌≡◌, ◌<◌, List, length, map, nat_lt, IfOk, OnOk};
ghost use Rattle.std.specs.List.{list_all};
ghost use Rattle.spec_value.specs.Datum.{Text as TextOf};
ghost use Rattle.spec_value.specs.Scatter.{scattered};
ghost use Rattle.spec_moo.specs.Effects.Scatter.{missing};
ghost use Rattle.moo_arith.specs.Targets.{kind_of, scattering_of};
ghost use Rattle.moo_program.specs.Counts.{kind_meant};
ghost use Rattle.moo_program.specs.Within.{slot_number as number_of};
ghost use Rattle.local_code.specs.Giving.{items_meant, AreWithin, given_slot, given_slots, lacks_value as lacks_value_of, next_part};

use crate::moo_stores::slots::fill;
use moo_arith::scatter::{TargetKind, scatter};
use moo_program::instruction::Slot;
use moo_value::error::MooError;
use moo_value::value::Value;
use std::alloc::{AllocError, Global};

fn kind(item: Slot) -> TargetKind
    ensures { kind_of result ≡ kind_meant item }
{
    match item {
        Slot::Required(_) => TargetKind::Required,
        Slot::Optional(_) | Slot::Default(_) => TargetKind::Optional,
        Slot::Rest(_) => TargetKind::Rest,
    }
}

fn kinds(alloc: Global, items: &[Slot]) -> Result<Vec<TargetKind>, AllocError>
    ensures { IfOk result (λ kinds. map kind_of kinds.items ≡ map kind_meant items.now) }
{
    let mut kinds = Vec::with_capacity(alloc, items.len())?;
    for item in items {
        kinds.push(kind(*item))?;
    }
    Ok(kinds)
}

/// What each item gets of a value, or none for one that is left out. A value that is no list raises `E_TYPE`, a list of a wrong length `E_ARGS`.
pub fn shares(
    alloc: Global,
    items: &[Slot],
    value: &Value,
) -> Result<Result<Vec<Option<Value>>, MooError>, AllocError>
    ensures { IfOk result (λ r. scattering_of r ≡ scattered (map kind_meant items.now) value.now) }
{
    let kinds = kinds(alloc, items)?;
    let shares = scatter(alloc, kinds.as_slice(), value)?;
    Ok(shares)
}

fn slot_number(item: Slot) -> usize
    ensures { result ≡ number_of item }
{
    match item {
        Slot::Required(slot) | Slot::Optional(slot) | Slot::Rest(slot) | Slot::Default(slot) => {
            slot as usize
        }
    }
}

/// Whether each variable has one of so many slots.
pub fn are_within(items: &[Slot], count: usize) -> bool
    ensures { result ≡ list_all (λ i. nat_lt (number_of i) count) items.now }
{
    items.iter().all(|item| slot_number(*item) < count)
}

/// Each variable gets what is there for it.
pub fn give(
    slots: &mut Vec<Option<Value>>,
    items: &[Slot],
    shares: &[Option<Value>],
) -> Result<(), AllocError>
    requires { AreWithin (length slots.old.items) items.now }
    ensures { OnOk result (slots.new.items ≡ given_slots items.now shares.now slots.old.items) }
{
    for i in 0..items.len().min(shares.len()) {
        give_one(slots, items[i], &shares[i])?;
    }
    Ok(())
}

fn give_one(
    slots: &mut Vec<Option<Value>>,
    item: Slot,
    share: &Option<Value>,
) -> Result<(), AllocError>
    requires { number_of item < length slots.old.items }
    ensures given { OnOk result (slots.new.items ≡ given_slot slots.old.items item share.now) }
    ensures count { OnOk result (length slots.new.items ≡ length slots.old.items) }
{
    match share {
        Some(value) => {
            let value = value.clone()?;
            fill(slots, slot_number(item), value);
            Ok(())
        }
        None => Ok(()),
    }
}

/// The part that is the default of the first item which wants it, among those behind the first so many; 0 where none does.
pub fn next_default(done: usize, items: &[Slot], shares: &[Option<Value>]) -> usize
    ensures { (names : List TextOf) → result ≡ next_part (missing done (items_meant names items.now) shares.now) }
{
    for i in done..items.len().min(shares.len()) {
        if lacks_value(items[i], &shares[i]) {
            return i + 1;
        }
    }
    0
}

// Whether an item has a default and got nothing.
fn lacks_value(item: Slot, share: &Option<Value>) -> bool
    ensures { result ≡ lacks_value_of item share.now }
{
    match (item, share) {
        (Slot::Default(_), None) => true,
        _ => false,
    }
}
