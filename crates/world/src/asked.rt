//! What was asked, each question once.
ghost use Rattle.std.specs.Prelude.{◌≡◌, ◌++◌, ◌∷◌, [], map, Contains, IfSome, OnOk, OnErr};
ghost use Rattle.spec_world.specs.World.{World};
ghost use Rattle.view.specs.Meanings.{question_of, answer_of};
ghost use Rattle.world.specs.Seen.{read_on};
ghost use Rattle.world.specs.Sought.{sought_of};

use crate::noted::Noted;
use crate::questions::{Sought, mark_of};
use std::alloc::{AllocError, Global};
use view::question::Answer;

// As long as there are so many at most, their marks alone are looked at.
const FEW: usize = 12;

// How many places there are at first.
const FIRST: usize = 64;

// How many places a question may have.
const TRIES: usize = 4;

// No question has this index.
const VACANT: usize = usize::MAX;

/// What was asked. A question that was asked before is mostly found again: by the marks of a few, and of many by a place that names one which may be it.
/// It is compared.
#[derive(Drop)]
pub(crate) struct Asked {
    notes: Vec<Noted>,
    // the marks of the first ones
    marks: [u32; FEW],
    // the places of all, once they are more
    places: Vec<usize>,
    alloc: Global,
}

impl Asked {
    /// Nothing asked.
    pub(crate) fn new(alloc: Global) -> Asked
        ensures { result.notes.items ≡ [] }
    {
        Asked {
            notes: Vec::new(alloc),
            marks: [0; FEW],
            places: Vec::new(alloc),
            alloc,
        }
    }

    /// What was asked, in its order.
    pub(crate) fn into_notes(self) -> Vec<Noted>
        ensures { result.items ≡ self.notes.items }
    {
        let Asked {
            notes,
            marks: _,
            places: _,
            alloc: _,
        } = self;
        notes
    }

    /// What is sought, which has this mark, if it is found among what was asked. It takes no memory.
    #[inline(always)]
    pub(crate) fn find(&self, mark: u64, sought: &Sought<'_>) -> Option<&Noted>
        ensures { IfSome result (λ n. Contains self.now.notes.items n.now × (sought_of sought.now ≡ question_of n.now.question)) }
    {
        if self.notes.len() > FEW {
            return self.find_by_place(mark, sought);
        }
        self.find_by_mark(mark, sought)
    }

    // The same where there are few: the last one first.
    #[inline(always)]
    fn find_by_mark(&self, mark: u64, sought: &Sought<'_>) -> Option<&Noted>
        ensures { IfSome result (λ n. Contains self.now.notes.items n.now × (sought_of sought.now ≡ question_of n.now.question)) }
    {
        let short = short_of(mark);
        let mut index = self.notes.len().min(FEW);
        while index > 0 {
            index -= 1;
            if self.marks[index] == short
                && let Some(noted) = noted_at(self.notes.as_slice(), index, sought)
            {
                return Some(noted);
            }
        }
        None
    }

    // The same where there are many.
    #[inline(never)]
    fn find_by_place(&self, mark: u64, sought: &Sought<'_>) -> Option<&Noted>
        ensures { IfSome result (λ n. Contains self.now.notes.items n.now × (sought_of sought.now ≡ question_of n.now.question)) }
    {
        for step in 0..TRIES {
            let index = self.named(mark, step);
            if index == VACANT {
                return None;
            }
            if let Some(noted) = noted_at(self.notes.as_slice(), index, sought) {
                return Some(noted);
            }
        }
        None
    }

    /// The answer that was kept with what is sought, if it is found.
    pub(crate) fn answer(&self, mark: u64, sought: &Sought<'_>) -> Option<&Answer>
        ensures { IfSome result (λ a. (w : World) → Contains (map (read_on w) self.now.notes.items) record { question = sought_of sought.now; answer = answer_of a.now }) }
    {
        self.find(mark, sought)?.kept()
    }

    // The index that a mark's place at a try names.
    fn named(&self, mark: u64, step: usize) -> usize {
        let place = place_of(self.places.len(), mark, step);
        if place < self.places.len() {
            self.places[place]
        } else {
            VACANT
        }
    }

    /// One more, whose question has this mark.
    #[inline(always)]
    pub(crate) fn push(&mut self, mark: u64, noted: Noted) -> Result<(), AllocError>
        ensures ok { OnOk result (self.new.notes.items ≡ self.old.notes.items ++ noted ∷ []) }
        ensures err { OnErr result (self.new.notes.items ≡ self.old.notes.items) }
    {
        let index = self.notes.len();
        if index == 0 {
            self.notes.reserve(FEW)?;
        }
        if index < FEW {
            self.notes.push(noted)?;
            self.marks[index] = short_of(mark);
            return Ok(());
        }
        if index >= self.places.len() / 2 {
            self.grow()?;
        }
        self.notes.push(noted)?;
        settle(&mut self.places, mark, index);
        Ok(())
    }

    // More places, for all that was asked.
    #[inline(never)]
    fn grow(&mut self) -> Result<(), AllocError>
        ensures { self.new.notes.items ≡ self.old.notes.items }
    {
        let count = self.places.len().saturating_mul(2).max(FIRST);
        let mut places = vec![in self.alloc; VACANT; count]?;
        for (index, noted) in self.notes.iter().enumerate() {
            settle(&mut places, mark_of(&noted.question), index);
        }
        self.places = places;
        Ok(())
    }
}

impl Noted {
    /// The answer that is kept, if one is.
    pub(crate) fn kept(&self) -> Option<&Answer>
        ensures { IfSome result (λ a. (w : World) → (read_on w self.now).answer ≡ answer_of a.now) }
    {
        match &self.answer {
            Some(answer) => Some(answer),
            None => None,
        }
    }
}

// The note of an index, if it is of what is sought.
#[inline(always)]
fn noted_at<'r>(notes: &'r [Noted], index: usize, sought: &Sought<'_>) -> Option<&'r Noted>
    ensures { IfSome result (λ n. Contains notes.now n.now × (sought_of sought.now ≡ question_of n.now.question)) }
{
    if index >= notes.len() {
        return None;
    }
    let noted = &notes[index];
    if sought.is(&noted.question) {
        Some(noted)
    } else {
        None
    }
}

// The upper half of a mark, which depends on all that it was made of.
#[inline(always)]
fn short_of(mark: u64) -> u32 {
    (mark >> 32) as u32
}

// The place of a mark at a try, where the count of places is a power of two.
fn place_of(count: usize, mark: u64, step: usize) -> usize {
    ((mark >> 32) as usize).wrapping_add(step) & count.wrapping_sub(1)
}

// A place of a mark names an index: one that names none, or else the first.
fn settle(places: &mut Vec<usize>, mark: u64, index: usize) {
    for step in 0..TRIES {
        let place = place_of(places.len(), mark, step);
        if place < places.len() && places[place] == VACANT {
            places[place] = index;
            return;
        }
    }
    let place = place_of(places.len(), mark, 0);
    if place < places.len() {
        places[place] = index;
    }
}
