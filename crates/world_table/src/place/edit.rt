//! Changes in place.
ghost use Rattle.std.specs.Prelude.{◌≡◌, ◌+◌, ◌<◌, ◌≤◌, ◌%◌, ◌^◌, OnOk, OnErr, []};
ghost use Rattle.std.specs.Ordering.{nat_cmp};
ghost use Rattle.std.specs.FinMap.{put};
ghost use Rattle.std.specs.Arc.{arc_value};
ghost use Rattle.world_table.specs.Branch.{reach, IsBranch};
ghost use Rattle.world_table.specs.Entries.{without};

use super::blocks::BlockBuilder;
use super::rows::{used, widen};
use super::{Held, Place, index_of};
use std::alloc::AllocError;
use std::sync::Arc;

impl<R: Drop> Place<R> {
    /// Puts a record at a key, in place where the blocks have no other owner.
    pub fn put(
        &mut self,
        builder: &mut BlockBuilder,
        levels: u32,
        key: u64,
        value: Arc<R>,
    ) -> Result<(), AllocError>
        requires branch { IsBranch levels self.old }
        requires levels { levels ≤ 12 }
        requires room { builder.old.count + levels < 2 ^ 32 }
        ensures height { OnOk result (self.new.height ≡ levels) }
        ensures entries { OnOk result (self.new.entries ≡ put nat_cmp (key % reach levels) (arc_value value) self.old.entries) }
        ensures err { OnErr result (self.new ≡ self.old) }
        ensures counted { OnOk result (builder.new.count ≤ builder.old.count + levels) }
    {
        if let Held::Block(below, places) = &mut self.held
            && *below + 1 == levels
            && let Some(own) = Arc::get_mut(places)
        {
            let at = index_of(key, *below);
            widen(own, at)?;
            return own[at].put(builder, *below, key, value);
        }
        *self = self.with(builder, levels, key, value)?;
        Ok(())
    }

    /// Takes the record at a key away, in place where the blocks have no other owner.
    pub fn remove(&mut self, builder: &mut BlockBuilder, key: u64) -> Result<(), AllocError>
        requires { builder.old.count + self.old.height < 2 ^ 32 }
        ensures height { self.new.height ≤ self.old.height }
        ensures lower { OnOk result (self.new.height < self.old.height → self.new.entries ≡ []) }
        ensures entries { OnOk result (self.new.entries ≡ without (key % reach self.old.height) self.old.entries) }
        ensures err { OnErr result (self.new ≡ self.old) }
        ensures counted { OnOk result (builder.new.count ≤ builder.old.count + self.old.height) }
    {
        if let Held::Block(below, places) = &mut self.held
            && let Some(own) = Arc::get_mut(places)
        {
            let at = index_of(key, *below);
            if at >= own.len() {
                return Ok(());
            }
            own[at].remove(builder, key)?;
            let count = used(own);
            if count > 0 {
                own.truncate(count);
                return Ok(());
            }
        } else {
            *self = self.without(builder, key)?;
            return Ok(());
        }
        *self = Place::nothing();
        Ok(())
    }
}
