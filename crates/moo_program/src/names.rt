//! The names of a program's variables, and their slots.
ghost use Rattle.std.specs.Prelude.{◌≡◌, ℕ, List, [], ◌∷◌, length, map, IfSome, OnOk};
ghost use Rattle.std.specs.Borrow.{Bor};
ghost use Rattle.spec_world.specs.WellFormed.{has_name};
ghost use Rattle.moo_code.specs.Names.{with_names, starting_names};
ghost use Rattle.moo_code.specs.Slots.{slot_of};
ghost use Rattle.moo_program.specs.Names.{known, is_at, candidate as candidate_of, candidate_by as candidate_by_of};
ghost use Rattle.moo_program.specs.Meaning.{name_at};

use moo_value::text::Text;
use std::alloc::{AllocError, Global};
use std::collections::BTreeMap;
use std::marker::Model;

/// The names that every verb begins with (Programmer's Manual, "Built-in variables"). They have the first slots, in this order.
pub const STARTING_NAMES: [&str; 17] = [
    "args", "argstr", "caller", "dobj", "dobjstr", "err", "int", "iobj", "iobjstr", "list", "num",
    "obj", "player", "prepstr", "str", "this", "verb",
];

/// A program's own names, once each, in the order of their first mention. Where a name stands is looked up, and not searched for.
#[derive(Drop)]
pub struct Names<'a> {
    list: Vec<Text>,
    places: BTreeMap<&'a str, usize>,
}

impl<'a> Model for Names<'a> {
    ghost use Rattle.std.specs.Prelude.{ℕ, List};

    ghost Value = { List (List ℕ) };

    ghost view = { λ a. a.list.items };

    ghost use Rattle.moo_program.specs.Names.{HasPlaces};

    ghost invariant = { λ a. HasPlaces a.list.items a.places };
}

impl<'a> Names<'a> {
    /// No names but the first ones.
    pub fn new(alloc: Global) -> Names<'a>
        ensures { result ≡ [] }
    {
        Names {
            list: Vec::new(alloc),
            places: BTreeMap::new(alloc),
        }
    }

    // Where a name stands among all, or how many there are.
    fn place(&self, name: &str) -> usize
        ensures { result ≡ slot_of (known self.now) name.now }
    {
        let place = starting_place(name);
        if place < STARTING_NAMES.len() {
            return place;
        }
        match self.places.get(name) {
            Some(own) => place + *own,
            None => place + self.list.len(),
        }
    }

    /// The slot of a variable, if it has one.
    pub fn slot(&self, name: &Text) -> Option<usize>
        ensures { IfSome result (λ i. name_at (known self.now) i ≡ name.now) }
    {
        let place = self.place(name.as_str());
        if place < STARTING_NAMES.len() + self.list.len() {
            Some(place)
        } else {
            None
        }
    }

    /// Adds a name, unless it has a slot.
    pub fn mention(&mut self, name: &'a Text) -> Result<(), AllocError>
        ensures { OnOk result (known self.new ≡ with_names (known self.old) (name.now ∷ [])) }
    {
        let text = name.as_str();
        if self.place(text) < STARTING_NAMES.len() + self.list.len() {
            return Ok(());
        }
        let place = self.list.len();
        self.list.push(name.clone()?)?;
        match self.places.insert(text, place) {
            Ok(_) => Ok(()),
            Err(error) => {
                self.list.pop();
                Err(AllocError::from(error))
            }
        }
    }

    /// How many slots there are.
    pub(crate) fn count(&self) -> usize
        ensures { result ≡ length (known self.now) }
    {
        STARTING_NAMES.len() + self.list.len()
    }

    /// The names behind the first ones.
    pub fn into_list(self) -> Vec<Text>
        ensures { result.items ≡ self.entry }
    {
        self.list
    }
}

/// How many slots there are, with these names behind the first ones.
#[tactic(auto, using(crate::proofs::Slots::known_count))]
pub fn count_slots(own: &[Text]) -> usize
    ensures { result ≡ length (known own.now) }
{
    STARTING_NAMES.len() + own.len()
}

/// The slot of a variable, where these are the names behind the first ones; or how many slots there are, if it has none.
#[tactic(auto, using(crate::proofs::Slots::slot_starting, crate::proofs::Slots::slot_own, crate::proofs::Slots::starting_within, crate::proofs::Slots::place_within))]
pub fn slot_among(own: &[Text], name: &str) -> usize
    ensures { result ≡ slot_of (known own.now) name.now }
{
    let place = starting_place(name);
    if place < STARTING_NAMES.len() {
        return place;
    }
    place + own_place(own, name)
}

/// Whether a variable has a slot, where these are the names behind the first ones.
#[tactic(auto, using(crate::proofs::Slots::has_is))]
pub fn has_slot_among(own: &[Text], name: &str) -> bool
    ensures { result ≡ has_name (known own.now) name.now }
{
    slot_among(own, name) < count_slots(own)
}

// The place among a program's own names.
fn own_place(names: &[Text], name: &str) -> usize
    ensures { result ≡ slot_of names.now name.now }
{
    for (place, known) in names.iter().enumerate() {
        if name == known.as_str() {
            return place;
        }
    }
    names.len()
}

// The place among the first names.
#[tactic(auto, using(crate::proofs::Starting::is_candidate, crate::proofs::Starting::no_candidate))]
fn starting_place(name: &str) -> usize
    ensures { result ≡ slot_of starting_names name.now }
{
    let place = candidate(name.as_bytes());
    if is_starting(place, name) {
        place
    } else {
        STARTING_NAMES.len()
    }
}

// Whether the first name at a place is this one.
fn is_starting(place: usize, name: &str) -> bool
    ensures { result ≡ is_at place name.now }
{
    place < STARTING_NAMES.len() && name == STARTING_NAMES[place]
}

// Where the one first name stands that has the length and the first character of a name, or how many there are.
fn candidate(name: &[u8]) -> usize
    ensures { result ≡ candidate_of name.now }
{
    match name.split_first() {
        Some((first, rest)) => candidate_by(*first, rest.len()),
        None => 17,
    }
}

// By the first character, and how many are behind it.
fn candidate_by(first: u8, behind: usize) -> usize
    ensures { result ≡ candidate_by_of first behind }
{
    match first {
        b'a' => if behind == 3 { 0 } else { 1 },
        b'c' => 2,
        b'd' => if behind == 3 { 3 } else { 4 },
        b'e' => 5,
        b'i' => if behind == 2 {
            6
        } else if behind == 3 {
            7
        } else {
            8
        },
        b'l' => 9,
        b'n' => 10,
        b'o' => 11,
        b'p' => if behind == 5 { 12 } else { 13 },
        b's' => 14,
        b't' => 15,
        b'v' => 16,
        _ => 17,
    }
}
