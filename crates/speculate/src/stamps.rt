//! Since when answers are what they are.
ghost use Rattle.std.specs.Prelude.{◌≡◌, ◌≤◌, ℤ, ◌∷◌, [], map, false, IsTrue, Some, slice_set};
ghost use Rattle.spec_world.specs.Questions.{Question as Asked};
ghost use Rattle.view.specs.Meanings.{change_of};
ghost use Rattle.speculate.specs.Fresh.{IsFresh, IsCovered, IsStill, Passes, place};

use crate::slots_read::SlotsRead;
use std::alloc::Global;
use view::change::Change;

// How many places there are. Objects whose numbers are so far apart share one.
const PLACES: usize = 1024;

/// After how many steps at the latest answers became what they are.
#[derive(Drop)]
pub(crate) struct Stamps {
    // Later nothing has changed but values of slots, and the next step's number.
    pub(crate) others: usize,
    // Later no slot of the objects of a place has got another value.
    pub(crate) places: Vec<usize>,
}

impl Stamps {
    /// Nothing has changed. After want of memory nothing is known of slots.
    pub(crate) fn new(alloc: Global) -> Stamps {
        let places = match vec![in alloc; 0usize; PLACES] {
            Ok(places) => places,
            Err(_) => Vec::new(alloc),
        };
        Stamps { others: 0, places }
    }

    /// Whether all questions that are about no slot, or about one of these objects, are known to have the answers that they had after so many steps.
    #[inline(always)]
    #[tactic(auto, using(crate::proofs::Stamped::all_fresh))]
    pub(crate) fn cover(&self, slots: &SlotsRead, seen: usize) -> bool
        ensures { IsTrue result → (q : Asked) → IsCovered slots.now q → IsFresh self.now q seen }
    {
        self.others <= seen
            && !slots.more
            && self.covers(&slots.first, seen)
            && self.covers(&slots.second, seen)
            && self.covers(&slots.third, seen)
    }

    // The same of the slots of one object, if there is one.
    #[inline(always)]
    fn covers(&self, object: &Option<i32>, seen: usize) -> bool
        ensures { IsTrue result → (o : ℤ) → object.now ≡ Some o → IsStill self.now o seen }
    {
        match object {
            Some(object) => self.is_still(*object, seen),
            None => true,
        }
    }

    // The same of the slots of an object.
    #[inline(always)]
    fn is_still(&self, object: i32, seen: usize) -> bool
        ensures { IsTrue result → IsStill self.now object seen }
    {
        match self.places.get(place_of(object)) {
            Some(stamp) => *stamp <= seen,
            None => false,
        }
    }

    /// So many steps are committed, of which the last one made these changes.
    #[inline(always)]
    pub(crate) fn stamp(&mut self, changes: &[Change], count: usize)
        ensures { Passes count self.old self.new (map change_of changes.now) }
    {
        for change in changes {
            self.note_one(change, count);
        }
    }

    // The same of one change.
    #[inline(always)]
    #[tactic(auto, using(crate::proofs::Stamped::passed_by, crate::proofs::Stamped::all_raised))]
    fn note_one(&mut self, change: &Change, count: usize)
        ensures { Passes count self.old self.new (change_of change.now ∷ []) }
    {
        match change {
            Change::Next(_) => {}
            Change::Value(object, _, _) => self.raise(*object, count),
            _ => self.others = count,
        }
    }

    // A slot of an object got another value by the last one of so many steps.
    #[inline(always)]
    fn raise(&mut self, object: i32, count: usize)
        ensures others { self.new.others ≡ self.old.others }
        ensures places { self.new.places.items ≡ slice_set self.old.places.items (place object) count }
    {
        let at = place_of(object);
        if at < self.places.len() {
            self.places[at] = count;
        }
    }
}

// The place of an object.
#[inline(always)]
fn place_of(object: i32) -> usize
    ensures { result ≡ place object }
{
    if object < 0 {
        return 0;
    }
    (object as usize) % PLACES
}
