//! What is to change.
ghost use Rattle.std.specs.Prelude.{◌≡◌, ◌<◌, ℤ, ◌↔◌, ◌++◌, ◌∷◌, [], true, false, length, map, IsTrue, IsFalse, IfSome, IfOk, OnOk, OnErr};
ghost use Rattle.spec_value.specs.Datum.{Datum, Text as Characters, fold_case};
ghost use Rattle.spec_world.specs.Questions.{new_part, new_value};
ghost use Rattle.view.specs.Facets.{facet, is_of_facet, is_beside_facet, AreTwo, IsBesideValue, DoesLast, TakesPlace};
ghost use Rattle.view.specs.Meanings.{change_of, part_of};
ghost use Rattle.view.specs.Writing.{Gives, GoesFurther, IsRenewed, IsRevalued, AreRevalued};

use crate::change::Change;
use crate::part::Part;
use moo_value::text::Text;
use moo_value::value::Value;
use std::alloc::{AllocError, Global};
use std::marker::Model;

// The parts that are not a whole one.
const ONE_SLOT: u8 = 5;

// So many of the last changes are looked at for one whose place another one may take.
const REACH: usize = 1024;

/// Changes, in the order in which they are made.
#[derive(Drop)]
pub struct Changes {
    items: Vec<Change>,
}

impl Model for Changes {
    ghost use Rattle.std.specs.Prelude.{List, map};
    ghost use Rattle.std.specs.Coded.{coded_list};
    ghost use Rattle.spec_world.specs.Questions.{Change as Meant};
    ghost use Rattle.view.specs.QuestionCode.{change_code};
    ghost use Rattle.view.specs.Meanings.{change_of};

    ghost Value = { List Meant };

    ghost coded = { coded_list change_code };

    ghost view = { λ a. map change_of a.items.items };
}

impl Changes {
    ghost use Rattle.view.specs.Meanings.{change_of};

    /// Nothing changed.
    pub fn new(alloc: Global) -> Changes
        ensures { result ≡ [] }
    {
        Changes {
            items: Vec::new(alloc),
        }
    }

    /// Lets go of all. Their room stays.
    #[inline(always)]
    pub fn clear(&mut self)
        ensures { self.new ≡ [] }
    {
        self.items.clear();
    }

    /// The changes, in their order.
    pub fn as_slice(&self) -> &[Change]
        ensures { map change_of result.now ≡ self.now }
    {
        self.items.as_slice()
    }

    /// The last change gives a slot this value, if it gave the same slot another one; whether it does. Else nothing changes. Case is ignored.
    #[inline(always)]
    pub fn renew(&mut self, object: i32, name: &Text, value: &Value) -> Result<bool, AllocError>
        ensures done { IfOk result (λ b. b ≡ true → GoesFurther object name.now value.now self.old self.new) }
        ensures left { IfOk result (λ b. b ≡ false → self.new ≡ self.old) }
        ensures err { OnErr result (self.new ≡ self.old) }
    {
        let count = self.items.len();
        if count == 0 {
            return Ok(false);
        }
        renew_one(&mut self.items[count - 1], object, name, value)
    }

    /// The change at a place gives its slot this value, if it gives a slot a value; whether it does. Else nothing changes.
    #[inline(always)]
    pub fn set_value(&mut self, place: usize, value: Value) -> bool
        ensures done { IsTrue result → AreRevalued value place self.old self.new }
        ensures left { IsFalse result → self.new ≡ self.old }
    {
        if place >= self.items.len() {
            return false;
        }
        revalue(&mut self.items[place], value)
    }

    /// One more change. Where an earlier one of the same whole part of an object, or of the value of the same slot, is near enough and nothing after it forbids
    /// that, the new one takes its place, so that what it held goes.
    #[tactic(auto, using(crate::proofs::Facets::pushed_last, crate::proofs::Facets::placed_last))]
    #[inline(never)]
    pub fn put(&mut self, change: Change) -> Result<(), AllocError>
        ensures ok { OnOk result (DoesLast (change_of change) self.old self.new) }
        ensures err { OnErr result (self.new ≡ self.old) }
    {
        match place_for(self.items.as_slice(), &change) {
            Some(place) => {
                self.items[place] = change;
                Ok(())
            }
            None => self.push(change),
        }
    }

    /// One more change.
    pub fn push(&mut self, change: Change) -> Result<(), AllocError>
        ensures ok { OnOk result (self.new ≡ self.old ++ change_of change ∷ []) }
        ensures err { OnErr result (self.new ≡ self.old) }
    {
        self.items.push(change)?;
        Ok(())
    }
}

// The place that a change may take, if it need not be the last.
#[inline(always)]
fn place_for(changes: &[Change], change: &Change) -> Option<usize>
    ensures within { IfSome result (λ n. n < length changes.now) }
    ensures takes { IfSome result (λ n. TakesPlace (change_of change.now) n (map change_of changes.now)) }
{
    match change {
        Change::Part(object, part) => place_of(changes, *object, part),
        Change::Value(object, name, _) => place_of_value(changes, *object, name),
        _ => None,
    }
}

// The place that another value of a slot may take, if it need not be the last.
fn place_of_value(changes: &[Change], object: i32, name: &Text) -> Option<usize>
    ensures within { IfSome result (λ n. n < length changes.now) }
    ensures takes { IfSome result (λ n. (v : Datum) → TakesPlace (new_value object name.now v) n (map change_of changes.now)) }
{
    let count = changes.len();
    let reach = REACH.min(count);
    for back in 0..reach {
        let place = count - 1 - back;
        let change = &changes[place];
        if gives(change, object, name) {
            return Some(place);
        }
        if !is_beside_value(change, object, name) {
            return None;
        }
    }
    None
}

// Whether a change and another value of this slot can be made in either order.
#[inline(always)]
fn is_beside_value(change: &Change, object: i32, name: &Text) -> bool
    ensures { IsTrue result → IsBesideValue object name.now (change_of change.now) }
{
    match change {
        Change::Part(other, part) => *other != object || facet_of(part) != ONE_SLOT,
        Change::Value(other, slot, _) => is_another(*other, slot, object, name),
        Change::Object(other, made) => *other != object && made.is_some(),
        _ => true,
    }
}

// Whether two slots are not the same.
#[inline(always)]
fn is_another(other: i32, slot: &Text, object: i32, name: &Text) -> bool
    ensures { IsTrue result → AreTwo other slot.now object name.now }
{
    if other != object {
        return true;
    }
    !is_same(slot, name)
}

// The place that a change of a part may take, if it need not be the last.
fn place_of(changes: &[Change], object: i32, part: &Part) -> Option<usize>
    ensures within { IfSome result (λ n. n < length changes.now) }
    ensures takes { IfSome result (λ n. TakesPlace (new_part object (part_of part.now)) n (map change_of changes.now)) }
{
    let facet = facet_of(part);
    if facet == ONE_SLOT {
        return None;
    }
    let count = changes.len();
    let reach = REACH.min(count);
    for back in 0..reach {
        let place = count - 1 - back;
        let change = &changes[place];
        if is_of(change, object, facet) {
            return Some(place);
        }
        if !is_beside(change, object, facet) {
            return None;
        }
    }
    None
}

// Which part it is.
fn facet_of(part: &Part) -> u8
    ensures { result ≡ facet (part_of part.now) }
{
    match part {
        Part::Header(_) => 0,
        Part::Children(_) => 1,
        Part::Contents(_) => 2,
        Part::Defines(_) => 3,
        Part::Verbs(_) => 4,
        Part::Slot(_, _) => ONE_SLOT,
    }
}

// Whether a change is of this part of an object.
#[inline(always)]
fn is_of(change: &Change, object: i32, facet: u8) -> bool
    ensures { result ≡ is_of_facet object facet (change_of change.now) }
{
    match change {
        Change::Part(other, part) => *other == object && facet_of(part) == facet,
        _ => false,
    }
}

// Whether a change and one of this part of an object can be made in either order.
#[inline(always)]
fn is_beside(change: &Change, object: i32, facet: u8) -> bool
    ensures { result ≡ is_beside_facet object facet (change_of change.now) }
{
    match change {
        Change::Part(other, part) => *other != object || facet_of(part) != facet,
        Change::Object(other, made) => *other != object && made.is_some(),
        _ => true,
    }
}

// A change gives a slot this value, if it gave the same slot another one.
#[tactic(auto, using(crate::proofs::Again::renews))]
#[inline(always)]
fn renew_one(
    change: &mut Change,
    object: i32,
    name: &Text,
    value: &Value,
) -> Result<bool, AllocError>
    ensures done { IfOk result (λ b. b ≡ true → IsRenewed object name.now value.now (change_of change.old) (change_of change.new)) }
    ensures left { IfOk result (λ b. b ≡ false → change.new ≡ change.old) }
    ensures err { OnErr result (change.new ≡ change.old) }
{
    let same = gives(change, object, name);
    if !same {
        return Ok(false);
    }
    let value = value.clone()?;
    put_value(change, value);
    Ok(true)
}

// A change that gives a slot a value gives it this one.
#[inline(always)]
fn revalue(change: &mut Change, value: Value) -> bool
    ensures done { IsTrue result → IsRevalued value (change_of change.old) (change_of change.new) }
    ensures left { IsFalse result → change.new ≡ change.old }
{
    match change {
        Change::Value(_, _, held) => {
            *held = value;
            true
        }
        _ => false,
    }
}

// Whether a change gives a slot a value.
#[inline(always)]
fn gives(change: &Change, object: i32, name: &Text) -> bool
    ensures { IsTrue result → Gives object name.now (change_of change.now) }
{
    match change {
        Change::Value(number, slot, _) => *number == object && is_same(slot, name),
        _ => false,
    }
}

// A change that gives a slot a value gives it this one.
#[inline(always)]
fn put_value(change: &mut Change, value: Value)
    ensures { (o : ℤ) (p : Characters) (v : Datum) → change_of change.old ≡ new_value o p v → change_of change.new ≡ new_value o p value }
{
    match change {
        Change::Value(_, _, held) => *held = value,
        _ => {}
    }
}

// Whether two names are the same, the case of letters ignored.
#[inline(always)]
fn is_same(name: &Text, other: &Text) -> bool
    ensures { IsTrue result ↔ fold_case name.now ≡ fold_case other.now }
{
    name.as_str().eq_ignore_ascii_case(other.as_str())
}
