//! Changes of a world that are made ready.
use crate::draft::Draft;
use std::marker::Model;
use std::snapshot::Snapshot as Remembered;

/// What a world is to become. `World::prepare` alone makes one, for the world that it was called on, as that world then was.
#[derive(Drop)]
pub struct Prepared {
    pub(crate) before: Remembered<Draft>,
    pub(crate) draft: Draft,
}

impl Model for Prepared {
    ghost use Rattle.world.specs.Ready.{Ready, ready_code};
    ghost use Rattle.view.specs.Sound.{IsSound};

    ghost Value = { Ready };

    ghost coded = { ready_code };

    ghost view = { λ a. record { before = a.before.value; after = a.draft } };

    ghost invariant = { λ a. IsSound a.draft };
}
