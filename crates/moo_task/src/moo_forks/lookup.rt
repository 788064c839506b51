//! The variables of a verb, looked up by their names and not searched for one after another.
ghost use Rattle.std.specs.Prelude.{◌≡◌, map, option_map, IfOk, OnOk, Some, cond};
ghost use Rattle.std.proofs.Props.{props};
ghost use Rattle.std.specs.Str.{bytes_eq};
ghost use Rattle.spec_value.specs.Datum.{Text as TextOf};
ghost use Rattle.spec_value.specs.Table.{named};
ghost use Rattle.spec_world.specs.WellFormed.{has_name};
ghost use Rattle.moo_code.specs.Names.{names_of};
ghost use Rattle.moo_program.specs.Names.{known, found_place};
ghost use Rattle.moo_task.specs.Copying.{slot_at, value_at};
ghost use Rattle.moo_task.specs.Frames.{kept_of};
ghost use Rattle.moo_task.specs.Variables.{variable_of};

use crate::frame::Frame;
use crate::variables::{Variable, value_in};
use moo_program::names::{STARTING_NAMES, slot_among};
use moo_value::text::Text;
use moo_value::value::Value;
use std::alloc::{AllocError, Global};
use std::collections::BTreeMap;
use std::marker::Model;

/// A program's own names, by which the slots of its variables are found.
#[derive(Drop)]
pub struct Slots<'a> {
    own: &'a [Text],
    slots: BTreeMap<&'a str, usize>,
}

impl<'a> Model for Slots<'a> {
    ghost use Rattle.std.specs.Prelude.{ℕ, List};

    ghost Value = { List (List ℕ) };

    ghost view = { λ a. a.own.now };

    ghost use Rattle.moo_task.specs.Copying.{HasSlots};

    ghost invariant = { λ a. HasSlots a.own.now a.slots };
}

impl<'a> Slots<'a> {
    /// Of these names, which stand behind those of every verb's start.
    pub fn new(alloc: Global, own: &'a [Text]) -> Result<Slots<'a>, AllocError>
        ensures { IfOk result (λ s. s ≡ own.now) }
    {
        let mut slots = BTreeMap::new(alloc);
        for i in (0..own.len()).rev() {
            put_slot(&mut slots, own[i].as_str(), STARTING_NAMES.len() + i)?;
        }
        Ok(Slots { own, slots })
    }

    /// The slot of a variable, if it has one.
    pub fn slot(&self, name: &str) -> Option<usize>
        ensures { result ≡ found_place (known self.now) name.now }
    {
        let place = slot_among(&[], name);
        if place < STARTING_NAMES.len() {
            return Some(place);
        }
        self.slots.get(name).copied()
    }

    /// Whether a variable has a slot.
    pub fn has(&self, name: &str) -> bool
        ensures { result ≡ has_name (known self.now) name.now }
    {
        self.slot(name).is_some()
    }
}

fn put_slot<'a>(
    slots: &mut BTreeMap<&'a str, usize>,
    name: &'a str,
    slot: usize,
) -> Result<(), AllocError>
    ensures { OnOk result ((x : TextOf) → slot_at slots.new x ≡ cond (bytes_eq name.now x) (Some slot) (slot_at slots.old x)) }
{
    match slots.insert(name, slot) {
        Ok(_) => Ok(()),
        Err(error) => Err(AllocError::from(error)),
    }
}

/// Variables, of which the first one of a name counts.
#[derive(Drop)]
pub struct Values<'a> {
    variables: &'a [Variable],
    values: BTreeMap<&'a str, &'a Value>,
}

impl<'a> Model for Values<'a> {
    ghost use Rattle.std.specs.Prelude.{List, map};
    ghost use Rattle.spec_value.specs.Datum.{Datum, Text as Name};
    ghost use Rattle.spec_value.specs.DatumCode.{datum_code};
    ghost use Rattle.spec_world.specs.WorldCode.{named_code};

    ghost Value = { List (Name × Datum) };

    ghost coded = { named_code datum_code };

    ghost use Rattle.moo_task.specs.Variables.{variable_of};

    ghost view = { λ a. map variable_of a.variables.now };

    ghost use Rattle.moo_task.specs.Copying.{HasValues};

    ghost invariant = { λ a. HasValues (map variable_of a.variables.now) a.values };
}

impl<'a> Values<'a> {
    /// Of these variables.
    pub fn new(alloc: Global, variables: &'a [Variable]) -> Result<Values<'a>, AllocError>
        ensures { IfOk result (λ v. v ≡ map variable_of variables.now) }
    {
        let mut values = BTreeMap::new(alloc);
        for i in (0..variables.len()).rev() {
            let variable = &variables[i];
            put_value(&mut values, variable.name.as_str(), &variable.value)?;
        }
        Ok(Values { variables, values })
    }

    /// The value of a variable, if it is there.
    pub fn find(&self, name: &str) -> Option<&Value>
        ensures { option_map (λ v. v.now) result ≡ named self.now name.now }
    {
        match self.values.get(name) {
            Some(value) => Some(*value),
            None => None,
        }
    }
}

fn put_value<'a>(
    values: &mut BTreeMap<&'a str, &'a Value>,
    name: &'a str,
    value: &'a Value,
) -> Result<(), AllocError>
    ensures { OnOk result ((x : TextOf) → value_at values.new x ≡ cond (bytes_eq name.now x) (Some value.now) (value_at values.old x)) }
{
    match values.insert(name, value) {
        Ok(_) => Ok(()),
        Err(error) => Err(AllocError::from(error)),
    }
}

/// The variables of a verb, those that its program names and the others.
#[derive(Drop)]
pub struct Variables<'a> {
    pub frame: &'a Frame,
    pub slots: Slots<'a>,
    pub further: Values<'a>,
    pub ghost slots_are: { known slots ≡ names_of frame.now.program } by { Prim.hlevel props },
    pub ghost further_are: { further ≡ frame.now.further },
}

impl<'a> Variables<'a> {
    /// Of this verb.
    pub fn new(alloc: Global, frame: &'a Frame) -> Result<Variables<'a>, AllocError>
        ensures { IfOk result (λ v. v.frame.now ≡ frame.now) }
    {
        let slots = Slots::new(alloc, frame.program.names())?;
        let further = Values::new(alloc, frame.further.as_slice())?;
        Ok(Variables {
            frame,
            slots,
            further,
        })
    }

    /// The value of a variable, whether the verb's program names it or not.
    pub fn find(&self, name: &str) -> Option<&Value>
        ensures { option_map (λ v. v.now) result ≡ named (kept_of self.now.frame.now).variables name.now }
    {
        match self.slots.slot(name) {
            Some(slot) => value_in(&self.frame.state.slots, slot),
            None => self.further.find(name),
        }
    }
}
