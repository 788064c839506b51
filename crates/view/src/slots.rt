//! The slots of an object.
ghost use Rattle.std.specs.Prelude.{◌≡◌, true, false, ◌<◌, ◌≤◌, ◌↔◌, IfOk, IfErr, OnOk, OnErr, IsTrue, IsFalse, Some, None, [], ◌∷◌, option_map, MatchOption, ℕ, slice_index_or, slice_set, insert, remove, length, vec_len};
ghost use Rattle.spec_value.specs.Datum.{Text as Characters, fold_case};
ghost use Rattle.spec_world.specs.World.{Slot as SlotOf};
ghost use Rattle.spec_world.specs.Permissions.{owns_or};
ghost use Rattle.spec_value.specs.Table.{named, is_named, with_name, without_name};
ghost use Rattle.std.specs.Ordering.{nat_cmp};
ghost use Rattle.view.specs.Writing.{AreRewritten};
ghost use Rattle.std.specs.Cmp.Lexicographic.{slice_cmp};

use crate::slot::Slot;
use moo_value::text::Text;
use moo_value::value::Value;
use slot_content::content::Content;
use std::alloc::{AllocError, Global};
use std::cmp::Ordering;
use std::marker::Model;

// Up to how many slots a walk finds one as soon as a search by halves.
const FEW: usize = 8;

/// The slots of an object by their properties' names in lower case, in rising order of names.
#[derive(Drop)]
pub struct Slots {
    pub(crate) entries: Vec<(Text, Slot)>,
}

impl Model for Slots {
    ghost use Rattle.std.specs.Prelude.{IsTrue};
    ghost use Rattle.spec_value.specs.Table.{Named, is_named};
    ghost use Rattle.spec_world.specs.World.{Slot as Meant};
    ghost use Rattle.spec_world.specs.WorldCode.{named_code, slot_code};

    ghost Value = { Named Meant };

    ghost coded = { named_code slot_code };

    ghost view = { λ a. a.entries.items };

    ghost invariant = { λ a. IsTrue (is_named a.entries.items) };
}

impl Slots {
    /// No slots.
    pub fn new(alloc: Global) -> Slots
        ensures { result ≡ [] }
    {
        Slots {
            entries: Vec::new(alloc),
        }
    }

    /// No slots, with room for so many.
    pub fn with_capacity(alloc: Global, count: usize) -> Result<Slots, AllocError>
        ensures { IfOk result (λ s. s ≡ []) }
    {
        Ok(Slots {
            entries: Vec::with_capacity(alloc, count)?,
        })
    }

    /// One slot, by its property's name in lower case.
    pub fn single(alloc: Global, name: Text, slot: Slot) -> Result<Slots, AllocError>
        ensures { IfOk result (λ s. s ≡ (name, slot) ∷ []) }
    {
        let mut entries = Vec::with_capacity(alloc, 1)?;
        entries.push((name, slot))?;
        Ok(Slots { entries })
    }

    /// The slots with their properties' names in lower case, in rising order of names.
    pub fn as_slice(&self) -> &[(Text, Slot)]
        ensures slots { result.now ≡ self.now }
        ensures sorted { IsTrue (is_named self.now) }
    {
        self.entries.as_slice()
    }

    /// The slot of a property. Case is ignored.
    pub fn get(&self, name: &Text) -> Option<&Slot>
        ensures { option_map (λ s. s.now) result ≡ named self.now (fold_case name.now) }
    {
        match position(&self.entries, name) {
            Some(index) => Some(&self.entries[index].1),
            None => None,
        }
    }

    /// The slot of a property, with the property's name in lower case. Case is ignored.
    #[inline(always)]
    pub fn entry(&self, name: &Text) -> Option<&(Text, Slot)>
        ensures { MatchOption result (named self.now (fold_case name.now) ≡ None)
            (λ e. (fold_case name.now ≡ e.now.0) × (named self.now (fold_case name.now) ≡ Some e.now.1)) }
    {
        match position(&self.entries, name) {
            Some(index) => Some(&self.entries[index]),
            None => None,
        }
    }

    /// Another slot for a property, or one more. After an `Err` they are as they were.
    #[tactic(auto, using(crate::proofs::Spots::put_sorted))]
    pub fn put(&mut self, alloc: Global, name: &Text, slot: Slot) -> Result<(), AllocError>
        ensures ok { OnOk result (self.new ≡ with_name self.old (fold_case name.now) slot) }
        ensures err { OnErr result (self.new ≡ self.old) }
    {
        match spot(&self.entries, name) {
            Ok(index) => self.entries[index] = (folded(alloc, name)?, slot),
            Err(index) => self.entries.insert(index, (folded(alloc, name)?, slot))?,
        }
        Ok(())
    }

    /// No slot for a property.
    pub fn remove(&mut self, name: &Text)
        ensures { self.new ≡ without_name self.old (fold_case name.now) }
    {
        if let Some(index) = position(&self.entries, name) {
            take_out(&mut self.entries, index);
        }
    }

    /// Gives the slot of a property another value where it lies, and answers whether there is such a slot. Case is ignored.
    pub fn set_value(&mut self, name: &Text, value: Value) -> bool
        ensures done { IsTrue result → Some self.new ≡ option_map
            (λ s. with_name self.old (fold_case name.now) (record s { content = Some value }))
            (named self.old (fold_case name.now)) }
        ensures left { IsFalse result → (named self.old (fold_case name.now) ≡ None) × (self.new ≡ self.old) }
    {
        let Some(index) = position(&self.entries, name) else {
            return false;
        };
        fill(&mut self.entries, index, value);
        true
    }

    /// Gives the slot of a property another value where it lies, for a programmer, and answers whether there is such a slot that the programmer owns or all may
    /// write. Case is ignored.
    #[inline(always)]
    pub fn write(&mut self, programmer: i32, name: &Text, value: &Value) -> Result<bool, AllocError>
        ensures done { IfOk result (λ b. b ≡ true → AreRewritten programmer name.now value.now self.old self.new) }
        ensures left { IfOk result (λ b. b ≡ false → self.new ≡ self.old) }
        ensures err { OnErr result (self.new ≡ self.old) }
    {
        let Some(index) = position(&self.entries, name) else {
            return Ok(false);
        };
        let allowed = is_written_at(&self.entries, index, programmer);
        if !allowed {
            return Ok(false);
        }
        let value = value.clone()?;
        fill(&mut self.entries, index, value);
        Ok(true)
    }

    /// The slots with another value in one, or None where there is no such slot.
    pub fn with_value(
        &self,
        alloc: Global,
        name: &Text,
        value: Value,
    ) -> Result<Option<Slots>, AllocError>
        ensures { IfOk result (λ o. o ≡ option_map
            (λ s. with_name self.now (fold_case name.now) (record s { content = Some value }))
            (named self.now (fold_case name.now))) }
    {
        let Some(index) = position(&self.entries, name) else {
            return Ok(None);
        };
        let mut entries = copies(alloc, &self.entries)?;
        fill(&mut entries, index, value);
        Ok(Some(Slots { entries }))
    }
}

impl Clone for Slots {
    ghost is_clone = { λ slots copy. copy ≡ slots };

    fn clone(&self) -> Result<Slots, AllocError> {
        Ok(Slots {
            entries: self.entries.clone()?,
        })
    }
}

// A name in lower case: itself where it is.
#[tactic(auto, using(crate::proofs::Spots::folded_is_text))]
fn folded(alloc: Global, name: &Text) -> Result<Text, AllocError>
    ensures { IfOk result (λ t. t ≡ fold_case name.now) }
{
    if spells(name, name) {
        return name.clone();
    }
    name.know();
    let mut text = String::from_str(alloc, name.as_str())?;
    text.make_ascii_lowercase();
    Text::from_string(text)
}

// Where the slot of a property stands, or else before which one it is to come.
fn spot(entries: &[(Text, Slot)], name: &Text) -> Result<usize, usize>
    requires { IsTrue (is_named entries.now) }
    ensures there { IfOk result (λ i. (i < length entries.now) × ((s : SlotOf) → with_name entries.now (fold_case name.now) s ≡ slice_set entries.now i (fold_case name.now, s))) }
    ensures before { IfErr result (λ i. (i ≤ length entries.now) × ((s : SlotOf) → with_name entries.now (fold_case name.now) s ≡ insert entries.now i (fold_case name.now, s))) }
{
    if entries.len() <= FEW {
        return spot_of_few(entries, name);
    }
    // Names that come in rising order each have their place behind the last.
    if is_behind(entries, name) {
        return Err(entries.len());
    }
    search(entries, name)
}

// As `spot`, by a walk.
#[inline]
fn spot_of_few(entries: &[(Text, Slot)], name: &Text) -> Result<usize, usize>
    ensures there { IfOk result (λ i. (i < length entries.now) × ((s : SlotOf) → with_name entries.now (fold_case name.now) s ≡ slice_set entries.now i (fold_case name.now, s))) }
    ensures before { IfErr result (λ i. (i ≤ length entries.now) × ((s : SlotOf) → with_name entries.now (fold_case name.now) s ≡ insert entries.now i (fold_case name.now, s))) }
{
    for (index, entry) in entries.iter().enumerate() {
        match order(name, &entry.0) {
            Ordering::Less => return Err(index),
            Ordering::Equal => return Ok(index),
            Ordering::Greater => {}
        }
    }
    Err(entries.len())
}

// Whether a name comes behind all others.
fn is_behind(entries: &[(Text, Slot)], name: &Text) -> bool
    requires { IsTrue (is_named entries.now) }
    ensures { IsTrue result → (s : SlotOf) → with_name entries.now (fold_case name.now) s ≡ insert entries.now (length entries.now) (fold_case name.now, s) }
{
    let count = entries.len();
    if count == 0 {
        return true;
    }
    match order(name, &entries[count - 1].0) {
        Ordering::Less => false,
        Ordering::Equal => false,
        Ordering::Greater => true,
    }
}

// Where the slot of a property stands.
#[inline]
fn position(entries: &[(Text, Slot)], name: &Text) -> Option<usize>
    requires { IsTrue (is_named entries.now) }
    ensures { MatchOption result (named entries.now (fold_case name.now) ≡ None)
        (λ i. (e : Characters × SlotOf) × (i < length entries.now) × (e ≡ slice_index_or entries.now i e) × (fold_case name.now ≡ e.0)
        × (named entries.now (fold_case name.now) ≡ Some e.1)) }
{
    if entries.len() <= FEW {
        return position_of_few(entries, name);
    }
    match search(entries, name) {
        Ok(index) => Some(index),
        Err(_) => None,
    }
}

// As `position`, by a walk.
#[inline]
fn position_of_few(entries: &[(Text, Slot)], name: &Text) -> Option<usize>
    ensures { MatchOption result (named entries.now (fold_case name.now) ≡ None)
        (λ i. (e : Characters × SlotOf) × (i < length entries.now) × (e ≡ slice_index_or entries.now i e) × (fold_case name.now ≡ e.0)
        × (named entries.now (fold_case name.now) ≡ Some e.1)) }
{
    for (index, entry) in entries.iter().enumerate() {
        if spells(name, &entry.0) {
            return Some(index);
        }
    }
    None
}

// Where the slot of a property stands, or else before which one it is to come: the half in which it is, and the half of that.
#[inline(never)]
fn search(entries: &[(Text, Slot)], name: &Text) -> Result<usize, usize>
    requires { IsTrue (is_named entries.now) }
    ensures there { IfOk result (λ i. (e : Characters × SlotOf) × (i < length entries.now) × (e ≡ slice_index_or entries.now i e) × (fold_case name.now ≡ e.0)
        × (named entries.now (fold_case name.now) ≡ Some e.1)) }
    ensures place { IfOk result (λ i. (i < length entries.now) × ((s : SlotOf) → with_name entries.now (fold_case name.now) s ≡ slice_set entries.now i (fold_case name.now, s))) }
    ensures none { IfErr result (λ i. named entries.now (fold_case name.now) ≡ None) }
    ensures before { IfErr result (λ i. (i ≤ length entries.now) × ((s : SlotOf) → with_name entries.now (fold_case name.now) s ≡ insert entries.now i (fold_case name.now, s))) }
{
    let mut low = 0;
    let mut high = entries.len();
    while low < high {
        let middle = low + (high - low) / 2;
        match order(name, &entries[middle].0) {
            Ordering::Less => high = middle,
            Ordering::Equal => return Ok(middle),
            Ordering::Greater => low = middle + 1,
        }
    }
    Err(low)
}

// How a name in lower case compares with that of a property.
fn order(name: &Text, stored: &Text) -> Ordering
    ensures { result ≡ slice_cmp nat_cmp (fold_case name.now) stored.now }
{
    compare(name.as_str().as_bytes(), stored.as_str().as_bytes())
}

// How the first text with the case of A to Z ignored compares with the second.
fn compare(text: &[u8], folded: &[u8]) -> Ordering
    ensures { result ≡ slice_cmp nat_cmp (fold_case text.now) folded.now }
{
    for (index, byte) in text.iter().enumerate() {
        if index == folded.len() {
            return Ordering::Greater;
        }
        let byte = byte.to_ascii_lowercase();
        if byte != folded[index] {
            return byte.cmp(&folded[index]);
        }
    }
    if text.len() == folded.len() {
        Ordering::Equal
    } else {
        Ordering::Less
    }
}

/// Whether a name in lower case is that of a property.
#[inline(always)]
pub fn spells(name: &Text, stored: &Text) -> bool
    ensures { IsTrue result ↔ (fold_case name.now ≡ stored.now) }
{
    is_folded(name.as_str().as_bytes(), stored.as_str().as_bytes())
}

// Whether the second text is the first with the case of A to Z ignored.
fn is_folded(text: &[u8], folded: &[u8]) -> bool
    ensures { IsTrue result ↔ (fold_case text.now ≡ folded.now) }
{
    if text.len() != folded.len() {
        return false;
    }
    for (index, byte) in text.iter().enumerate() {
        if byte.to_ascii_lowercase() != folded[index] {
            return false;
        }
    }
    true
}

// Whether a programmer owns the slot at an index, or all may write it.
#[inline(always)]
fn is_written_at(entries: &[(Text, Slot)], index: usize, programmer: i32) -> bool
    requires { index < length entries.now }
    ensures { (e : Characters × SlotOf) × (e ≡ slice_index_or entries.now index e) × (result ≡ owns_or programmer (e.1).owner (e.1).writable) }
{
    entries[index].1.is_written_by(programmer)
}

// The slot at an index has another value.
#[inline(always)]
fn fill(entries: &mut Vec<(Text, Slot)>, index: usize, value: Value)
    requires { index < vec_len entries.old }
    ensures { (e : Characters × SlotOf) × (e ≡ slice_index_or entries.old.items index e)
        × (entries.new.items ≡ slice_set entries.old.items index (e.0, record e.1 { content = Some value })) }
{
    let slot = &mut entries[index].1;
    slot.content = Content::value(value);
}

// The slot at an index goes.
fn take_out(entries: &mut Vec<(Text, Slot)>, index: usize)
    requires { index < vec_len entries.old }
    ensures { entries.new.items ≡ remove entries.old.items index }
{
    entries.remove(index);
}

fn copies(alloc: Global, entries: &[(Text, Slot)]) -> Result<Vec<(Text, Slot)>, AllocError>
    ensures { IfOk result (λ v. v.items ≡ entries.now) }
{
    let mut all = Vec::with_capacity(alloc, entries.len())?;
    for entry in entries {
        all.push((entry.0.clone()?, entry.1.clone()?))?;
    }
    Ok(all)
}
