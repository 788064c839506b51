//! The places of a block, and what lies below them.
ghost use Rattle.std.specs.Prelude.{◌≡◌, ℕ, ◌+◌, ◌*◌, ◌/◌, ◌%◌, ◌^◌, ◌<◌, ◌≤◌, [], ◌∷◌, IfOk, option_map, IsTrue, ◌↔◌};
ghost use Rattle.std.specs.Ordering.{nat_cmp};
ghost use Rattle.std.specs.FinMap.{find};
ghost use Rattle.std.specs.Arc.{arc_value};
ghost use Rattle.world_table.specs.Branch.{reach};

pub mod blocks;
pub mod change;
pub mod edit;
pub mod revise;
mod rows;
pub mod walk;

use std::alloc::AllocError;
use std::marker::Model;
use std::sync::Arc;

/// A place of a block: nothing, a record, or a block of the level below.
#[cycle(place)]
#[derive(Drop)]
pub struct Place<R> {
    held: Held<R>,
}

#[cycle(place)]
#[derive(Drop)]
enum Held<R> {
    Nothing,
    Record(Arc<R>),
    // How many levels of blocks lie below this one, and its places: 32 at most, as many as five bits tell apart, and mostly no more than
    // as far as the last that is used. A place behind them has nothing.
    Block(u32, Arc<Vec<Place<R>>>),
}

impl<R> Model for Place<R> {
    ghost use Rattle.world_table.specs.Branch.{Branch, branch_code};

    ghost Value = { Branch R };

    ghost coded = { branch_code R.code };

    ghost use Rattle.world_table.specs.Held.{branch_of, IsSound};

    ghost view = { λ a. branch_of a.held };

    ghost invariant = { λ a. IsSound a.held };

    ghost size = { λ b. b.height };

    ghost use Rattle.world_table.specs.Falls.{height_falls};

    ghost size_decreases = { λ a h. height_falls a.held h };
}

impl<R> Place<R> {
    /// An empty place.
    pub fn nothing() -> Self
        ensures height { result.height ≡ 0 }
        ensures entries { result.entries ≡ [] }
    {
        Place {
            held: Held::Nothing,
        }
    }

    /// A place with a record.
    pub fn of_record(value: Arc<R>) -> Self
        ensures height { result.height ≡ 0 }
        ensures entries { result.entries ≡ (0, arc_value value) ∷ [] }
    {
        Place {
            held: Held::Record(value),
        }
    }

    /// The record at a key, of which only the bits of these levels are read.
    pub fn get(&self, key: u64) -> Option<&Arc<R>>
        ensures { option_map (λ r. arc_value r.now) result ≡ find nat_cmp (key % reach self.now.height) self.now.entries }
    {
        let mut place = self;
        loop {
            match &place.held {
                Held::Nothing => return None,
                Held::Record(value) => return Some(value),
                Held::Block(below, places) => {
                    let at = index_of(key, *below);
                    if at >= places.len() {
                        return None;
                    }
                    place = &places[at];
                }
            }
        }
    }
}

impl<R: Drop> Place<R> {
    // Whether the place is empty.
    fn is_nothing(&self) -> bool
        ensures { IsTrue result → self.now.entries ≡ [] }
    {
        matches!(&self.held, Held::Nothing)
    }

    /// The same branch, with one more owner.
    pub fn share(&self) -> Result<Place<R>, AllocError>
        ensures { IfOk result (λ p. p ≡ self.now) }
    {
        match &self.held {
            Held::Nothing => Ok(Place {
                held: Held::Nothing,
            }),
            Held::Record(value) => Ok(Place {
                held: Held::Record(value.clone()?),
            }),
            Held::Block(below, places) => Ok(Place {
                held: Held::Block(*below, places.clone()?),
            }),
        }
    }
}

/// The place of a key in a block with so many levels below it.
fn index_of(key: u64, below: u32) -> usize
    requires { below < 12 }
    ensures value { result ≡ key / reach below % 32 }
    ensures within { result < 32 }
{
    ((key >> (5 * below)) & 31) as usize
}
