//! Changes of a record where it lies.
ghost use Rattle.std.specs.Prelude.{◌≡◌, ◌%◌, true, false, IfOk, OnErr};
ghost use Rattle.std.specs.Arc.{arc_value};
ghost use Rattle.world_table.specs.Branch.{reach};
ghost use Rattle.world_table.specs.Revised.{Revises};

use super::{Held, Place, index_of};
use crate::revision::Revision;
use std::alloc::AllocError;
use std::sync::Arc;

impl<R: Drop> Place<R> {
    /// Changes the record at a key, of which only the bits of these levels are read, and answers whether it did: it does not where there is no
    /// record, nor where the record or a block on the way to it has another owner.
    pub fn revise<E: Revision<R>>(&mut self, key: u64, revision: &E) -> Result<bool, AllocError>
        ensures height { self.new.height ≡ self.old.height }
        ensures done { IfOk result (λ b. b ≡ true → Revises (E.makes revision.now) (key % reach self.old.height) self.old.entries self.new.entries) }
        ensures left { IfOk result (λ b. b ≡ false → self.new ≡ self.old) }
        ensures err { OnErr result (self.new ≡ self.old) }
    {
        if let Held::Block(below, places) = &mut self.held {
            let Some(own) = Arc::get_mut(places) else {
                return Ok(false);
            };
            let at = index_of(key, *below);
            if at >= own.len() {
                return Ok(false);
            }
            return own[at].revise(key, revision);
        }
        if let Held::Record(value) = &mut self.held {
            return revise_own(value, revision);
        }
        Ok(false)
    }
}

// Changes a record that has no other owner.
#[inline(never)]
fn revise_own<R: Drop, E: Revision<R>>(found: &mut Arc<R>, revision: &E) -> Result<bool, AllocError>
    ensures done { IfOk result (λ b. b ≡ true → E.makes revision.now (arc_value found.old) (arc_value found.new)) }
    ensures left { IfOk result (λ b. b ≡ false → arc_value found.new ≡ arc_value found.old) }
    ensures err { OnErr result (arc_value found.new ≡ arc_value found.old) }
{
    match Arc::get_mut(found) {
        Some(own) => revision.revise(own),
        None => Ok(false),
    }
}
