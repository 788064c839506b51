//! Many changes of one table.
ghost use Rattle.std.specs.Prelude.{◌≡◌, ◌+◌, ◌*◌, ◌^◌, ◌<◌, ◌≤◌, true, false, IfOk, OnOk, OnErr};
ghost use Rattle.std.specs.Ordering.{nat_cmp};
ghost use Rattle.std.specs.FinMap.{put};
ghost use Rattle.std.specs.Arc.{arc_value};
ghost use Rattle.world_table.specs.Entries.{without};
ghost use Rattle.world_table.specs.Revised.{Revises};

use super::Table;
use crate::place::blocks::BlockBuilder;
use crate::revision::Revision;
use std::alloc::AllocError;
use std::sync::Arc;

impl<R: Drop, const LEVELS: u32> Table<R, LEVELS> {
    /// The same table, to be changed in place: none of its blocks is built yet.
    pub fn fork(&self) -> Result<Self, AllocError>
        ensures entries { IfOk result (λ t. t.entries ≡ self.now.entries) }
        ensures blocks { IfOk result (λ t. t.blocks ≡ 0) }
    {
        Ok(Table {
            root: self.root.share()?,
            count: self.count,
            blocks: 0,
            alloc: self.alloc,
        })
    }

    /// Puts a record at a key, in place of the one that may be there.
    ///
    /// Blocks that no other table shares are changed in place, so many changes of one table copy
    /// no block twice.
    pub fn put(&mut self, key: u64, value: R) -> Result<(), AllocError>
        requires { key < 2 ^ (5 * LEVELS) }
        ensures ok { OnOk result (self.new.entries ≡ put nat_cmp key value self.old.entries) }
        ensures err { OnErr result (self.new ≡ self.old) }
        ensures blocks { self.new.blocks ≤ self.old.blocks + LEVELS }
    {
        let value = Arc::new(self.alloc, value)?;
        self.put_shared(key, value)
    }

    /// The same with a record that may have other owners.
    pub fn put_shared(&mut self, key: u64, value: Arc<R>) -> Result<(), AllocError>
        requires { key < 2 ^ (5 * LEVELS) }
        ensures ok { OnOk result (self.new.entries ≡ put nat_cmp key (arc_value value) self.old.entries) }
        ensures err { OnErr result (self.new ≡ self.old) }
        ensures blocks { self.new.blocks ≤ self.old.blocks + LEVELS }
    {
        let mut builder = BlockBuilder::new(self.alloc);
        let count = match self.get_shared(key) {
            Some(_) => self.count,
            None => self.count + 1,
        };
        self.root.put(&mut builder, LEVELS, key, value)?;
        self.count = count;
        self.blocks = self.blocks.saturating_add(builder.count);
        Ok(())
    }

    /// Takes the record at a key away, if there is one. Blocks are changed as by `put`.
    pub fn remove(&mut self, key: u64) -> Result<(), AllocError>
        ensures ok { OnOk result (self.new.entries ≡ without key self.old.entries) }
        ensures err { OnErr result (self.new ≡ self.old) }
        ensures blocks { self.new.blocks ≤ self.old.blocks + LEVELS }
    {
        let Some(_) = self.get_shared(key) else {
            return Ok(());
        };
        let mut builder = BlockBuilder::new(self.alloc);
        self.root.remove(&mut builder, key)?;
        self.count -= 1;
        self.blocks = self.blocks.saturating_add(builder.count);
        Ok(())
    }

    /// Changes the record at a key where it lies, and answers whether it did: it does not where there is no record, nor where another
    /// table shares it. No block is built, and no memory is taken but by the change.
    pub fn revise<E: Revision<R>>(&mut self, key: u64, revision: &E) -> Result<bool, AllocError>
        requires { key < 2 ^ (5 * LEVELS) }
        ensures done { IfOk result (λ b. b ≡ true → Revises (E.makes revision.now) key self.old.entries self.new.entries) }
        ensures left { IfOk result (λ b. b ≡ false → self.new ≡ self.old) }
        ensures err { OnErr result (self.new ≡ self.old) }
        ensures blocks { self.new.blocks ≡ self.old.blocks }
    {
        let done = self.root.revise(key, revision)?;
        Ok(done)
    }
}
