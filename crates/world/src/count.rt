//! A count that only contracts see.
ghost use Rattle.std.specs.Prelude.{◌≡◌, ◌+◌};

use std::marker::Model;
use std::snapshot::Snapshot;

/// How often something happened. Nothing is counted when the program runs.
#[derive(Drop)]
pub struct Count {
    before: Option<Snapshot<Count>>,
}

impl Model for Count {
    ghost use Rattle.std.specs.Prelude.{ℕ};
    ghost use Rattle.world.specs.Counts.{count_of};

    ghost Value = { ℕ };

    ghost view = { λ m. count_of m.before };

    ghost size = { λ n. n };
}

impl Count {
    /// It has not happened yet.
    pub fn zero() -> Count
        ensures { result ≡ 0 }
    {
        Count { before: None }
    }

    /// It happens once more.
    pub fn tick(&mut self)
        ensures { self.new ≡ self.old + 1 }
    {
        let next = Count {
            before: Some(Snapshot::of(&*self)),
        };
        *self = next;
    }
}
