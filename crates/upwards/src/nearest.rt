//! What stands above each record, and the nearest one upwards that is filled.
ghost use Rattle.std.specs.Prelude.{◌≡◌, ◌<◌, ◌≤◌, ℕ, List, Bool, false, true, Some, None, length, slice_index_or, IsTrue, IsSomeAnd, slice_set};
ghost use Rattle.upwards.specs.declared.nearest.Nearest.TheVariants.{Unknown};
ghost use Rattle.upwards.specs.Ways.{IsWay, HaveWays, IsRight, IsKnown, first_filled, nearest_of, is_known, own_nearest, parents_of};

/// What is known of the nearest record, from one upwards, that is filled.
#[derive(Clone, Copy)]
pub enum Nearest {
    Unknown,
    Absent,
    At(usize),
}

/// What stands above each record, by their places among all records.
#[derive(Drop)]
pub struct Upwards {
    // the record of the parent, if there is one
    parents: Vec<Option<usize>>,
    nearest: Vec<Nearest>,
}

impl Upwards {
    /// What stands above each record, and what is known at first: of a record that is filled, that it is the nearest itself.
    pub fn new(parents: Vec<Option<usize>>, nearest: Vec<Nearest>) -> Upwards
        ensures parents { parents_of result ≡ parents.items }
        ensures right { (filled : List Bool) → length nearest.items ≡ length parents.items
            → ((k : ℕ) → k < length parents.items → slice_index_or nearest.items k Unknown ≡ own_nearest k (slice_index_or filled k false))
            → IsRight filled result }
    {
        Upwards { parents, nearest }
    }

    /// The record above another.
    pub fn above(&self, place: usize) -> Option<usize>
        ensures { result ≡ slice_index_or (parents_of self.now) place None }
    {
        match self.parents.get(place) {
            Some(parent) => *parent,
            None => None,
        }
    }

    /// The record itself, or the nearest one above it, that is filled.
    pub fn definer(&self, place: Option<usize>) -> Option<usize>
        ensures { (filled : List Bool) (way : List ℕ) → IsKnown filled self.now → IsWay (parents_of self.now) place way → result ≡ first_filled filled way }
    {
        let Some(place) = place else {
            return None;
        };
        match self.known(place) {
            Nearest::At(definer) => Some(definer),
            _ => None,
        }
    }

    fn known(&self, place: usize) -> Nearest
        ensures { (n : Nearest) → place < length self.now.nearest.items → result ≡ slice_index_or self.now.nearest.items place n }
    {
        match self.nearest.get(place) {
            Some(nearest) => *nearest,
            None => Nearest::Absent,
        }
    }

    // What is found above a record; still unknown where its parents go round.
    fn search(&self, start: usize) -> Nearest
        ensures { (filled : List Bool) (way : List ℕ) → IsRight filled self.now → IsWay (parents_of self.now) (Some start) way
            → length way ≤ length (parents_of self.now) → result ≡ nearest_of (first_filled filled way) }
    {
        let mut place = start;
        for _step in 0..self.parents.len() {
            match self.known(place) {
                Nearest::Unknown => {}
                found => return found,
            }
            match self.above(place) {
                Some(parent) => place = parent,
                None => return Nearest::Absent,
            }
        }
        Nearest::Unknown
    }

    // Notes what was found for all records from one upwards of which nothing is known.
    fn note(&mut self, start: usize, found: Nearest)
        ensures parents { parents_of self.new ≡ parents_of self.old }
        ensures right { (filled : List Bool) (way : List ℕ) → IsRight filled self.old → IsWay (parents_of self.old) (Some start) way
            → found ≡ nearest_of (first_filled filled way) → IsRight filled self.new }
        ensures known { IsTrue (is_known found) → (i : ℕ) → IsTrue (is_known (slice_index_or self.old.nearest.items i Unknown)) → IsTrue (is_known (slice_index_or self.new.nearest.items i Unknown)) }
        ensures start { IsTrue (is_known found) → start < length (parents_of self.old) → length self.old.nearest.items ≡ length (parents_of self.old)
            → IsTrue (is_known (slice_index_or self.new.nearest.items start Unknown)) }
    {
        let mut place = start;
        for _step in 0..self.parents.len() {
            match self.known(place) {
                Nearest::Unknown => self.set(place, found),
                _ => return,
            }
            match self.above(place) {
                Some(parent) => place = parent,
                None => return,
            }
        }
    }

    fn set(&mut self, place: usize, found: Nearest)
        ensures parents { parents_of self.new ≡ parents_of self.old }
        ensures nearest { self.new.nearest.items ≡ slice_set self.old.nearest.items place found }
    {
        if place < self.nearest.len() {
            self.nearest[place] = found;
        }
    }
}

/// What stands above each record, with all that is known of it; None where parents go round.
pub fn known_everywhere(mut all: Upwards) -> Option<Upwards>
    ensures { (filled : List Bool) → IsRight filled all → HaveWays (parents_of all)
        → IsSomeAnd result (λ u. (parents_of u ≡ parents_of all) × IsKnown filled u) }
{
    for place in 0..all.parents.len() {
        match all.search(place) {
            Nearest::Unknown => return None,
            found => all.note(place, found),
        }
    }
    Some(all)
}
