//! What a position of a list holds, and how it was committed.
ghost use Rattle.std.specs.Prelude.{◌≡◌, ◌↔◌, ◌<◌, IsTrue, length, Some, slice_get, slice_set};

use crate::guesses::{Guess, Spent};
use std::mem;

/// What a position that is not committed yet holds.
#[derive(Drop)]
pub enum Held {
    /// Nothing.
    Empty,
    /// That no guess comes.
    Loss,
    /// A guess, and how many steps were committed when it was made, if that is known.
    Holds(Guess, Option<usize>),
}

impl Held {
    /// Whether it is nothing.
    pub fn is_empty(&self) -> bool
        ensures { IsTrue result ↔ self.now ≡ Held.Empty }
    {
        matches!(self, Held::Empty)
    }

    /// How many steps a guess for this position leaps over that were not committed when it was made, if that is known, else none.
    pub(crate) fn distance(&self, position: usize) -> usize {
        match self {
            Held::Holds(_, Some(seen)) => position.saturating_sub(*seen),
            _ => 0,
        }
    }

    /// What is left of a guess, where it is one.
    pub(crate) fn into_spent(self) -> Option<Spent> {
        match self {
            Held::Holds(guess, _) => Some(guess.into_spent()),
            _ => None,
        }
    }
}

/// What a position holds, taken out of it.
pub(crate) fn take_out(held: &mut Vec<Held>, position: usize) -> Held
    requires { position < length held.old.items }
    ensures value { slice_get held.old.items position ≡ Some result }
    ensures rest { held.new.items ≡ slice_set held.old.items position Held.Empty }
{
    mem::replace(&mut held[position], Held::Empty)
}

/// A position holds this.
pub(crate) fn put_back(held: &mut Vec<Held>, position: usize, content: Held)
    requires { position < length held.old.items }
    ensures { held.new.items ≡ slice_set held.old.items position content }
{
    held[position] = content;
}

/// How a step was committed.
#[derive(Clone, Copy, PartialEq, Eq, Debug)]
pub enum Mark {
    /// Its guess agreed with the world at its turn, and was kept.
    Kept,
    /// An answer that its guess had read was another at its turn: it was run on the world.
    Rerun,
    /// It had no guess: it was run on the world.
    Lost,
}
