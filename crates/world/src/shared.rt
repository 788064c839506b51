//! Snapshots for several owners.
ghost use Rattle.std.specs.Prelude.{◌≡◌, IfOk};
ghost use Rattle.view.specs.Sound.{IsSound};

use crate::draft::Draft;
use crate::worlds::Snapshot;
use std::alloc::{AllocError, Global};
use std::marker::Model;
use std::sync::Arc;

/// A snapshot for several owners: a clone is a count.
#[derive(Drop)]
pub struct SharedSnapshot {
    snapshot: Arc<Snapshot>,
}

impl Model for SharedSnapshot {
    ghost use Rattle.spec_world.specs.World.{World as Meant};
    ghost use Rattle.spec_world.specs.WorldCode.{world_code};
    ghost use Rattle.std.specs.Arc.{arc_value};

    ghost Value = { Meant };

    ghost coded = { world_code };

    ghost view = { λ a. arc_value a.snapshot };
}

impl SharedSnapshot {
    /// A snapshot, to be shared.
    pub fn new(alloc: Global, snapshot: Snapshot) -> Result<SharedSnapshot, AllocError>
        ensures { IfOk result (λ s. s ≡ snapshot) }
    {
        Ok(SharedSnapshot {
            snapshot: Arc::new(alloc, snapshot)?,
        })
    }

    /// A snapshot is well formed.
    pub fn know(&self)
        ensures { IsSound self.now }
    {
        self.snapshot.know();
    }

    /// The records.
    #[inline(always)]
    pub(crate) fn records(&self) -> &Draft
        ensures { result.now ≡ self.now }
    {
        self.snapshot.records()
    }
}

impl Clone for SharedSnapshot {
    ghost is_clone = { λ snapshot copy. copy ≡ snapshot };

    fn clone(&self) -> Result<SharedSnapshot, AllocError> {
        Ok(SharedSnapshot {
            snapshot: self.snapshot.clone()?,
        })
    }
}
