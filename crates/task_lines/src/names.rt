//! The slots of a program's variables, by their names.
ghost use Rattle.std.specs.Prelude.{◌≡◌, IfOk, IsTrue};
ghost use Rattle.spec_world.specs.WellFormed.{names_once};
ghost use Rattle.moo_code.specs.Names.{names_of};
ghost use Rattle.moo_program.specs.Names.{HasPlaces, found_place, known};

use moo_program::names::{STARTING_NAMES, slot_among};
use moo_program::program::Program;
use moo_value::text::Text;
use std::alloc::{AllocError, Global};
use std::collections::BTreeMap;
use std::marker::Model;

/// The slots of a program's variables, which are looked up and not searched for.
#[derive(Drop)]
pub struct SlotNames<'a> {
    // the names behind those of every verb's start
    own: &'a [Text],
    places: BTreeMap<&'a str, usize>,
}

impl<'a> Model for SlotNames<'a> {
    ghost use Rattle.std.specs.Prelude.{ℕ, List};

    ghost Value = { List (List ℕ) };

    ghost view = { λ a. a.own.now };

    ghost use Rattle.std.specs.Prelude.{◌<◌, ◌^◌, length};
    ghost use Rattle.moo_program.specs.Names.{HasPlaces};

    ghost invariant = { λ a. HasPlaces a.own.now a.places × (length a.own.now < 2 ^ 63) };
}

impl<'a> SlotNames<'a> {
    /// Those of a program.
    pub fn new(alloc: Global, program: &'a Program) -> Result<SlotNames<'a>, AllocError>
        ensures { IfOk result (λ names. known names ≡ names_of program.now) }
    {
        let own = program.names();
        let places = places_of(alloc, own)?;
        Ok(SlotNames { own, places })
    }

    /// The slot of a variable, if it has one.
    pub fn slot(&self, name: &str) -> Option<usize>
        ensures { result ≡ found_place (known self.now) name.now }
    {
        let place = slot_among(&[], name);
        if place < STARTING_NAMES.len() {
            return Some(place);
        }
        match self.places.get(name) {
            Some(own) => Some(STARTING_NAMES.len() + *own),
            None => None,
        }
    }
}

// Where each name stands among them.
fn places_of<'a>(alloc: Global, own: &'a [Text]) -> Result<BTreeMap<&'a str, usize>, AllocError>
    requires { IsTrue (names_once (known own.now)) }
    ensures { IfOk result (λ places. HasPlaces own.now places) }
{
    let mut places = BTreeMap::new(alloc);
    for (place, name) in own.iter().enumerate() {
        places.insert(name.as_str(), place)?;
    }
    Ok(places)
}
