//! Tables.
ghost use Rattle.std.specs.Prelude.{◌≡◌, ℕ, ◌+◌, ◌*◌, ◌^◌, ◌<◌, ◌≤◌, ◌==◌, [], length, IfOk, OnOk, IsTrue, ◌↔◌, option_map};
ghost use Rattle.std.specs.List.{All};
ghost use Rattle.std.specs.Ordering.{nat_cmp};
ghost use Rattle.std.specs.FinMap.{find, put, is_sorted};
ghost use Rattle.std.specs.Arc.{arc_value};
ghost use Rattle.world_table.specs.Entries.{without, first_from, last_key};

mod edit;

use crate::place::Place;
use crate::place::blocks::BlockBuilder;
use std::alloc::{AllocError, Global};
use std::marker::Model;
use std::sync::Arc;

/// A table from the numbers of `5 * LEVELS` bits to shared records, as a tree of blocks with 32
/// places each.
///
/// A change gives a new table and leaves the old one as it was, also where memory runs out. The two
/// share all blocks but those on the way to the changed place.
#[derive(Drop)]
pub struct Table<R, const LEVELS: u32> {
    root: Place<R>,
    count: usize,
    blocks: usize,
    alloc: Global,
}

impl<R, const LEVELS: u32> Model for Table<R, LEVELS> {
    ghost use Rattle.world_table.specs.Contents.{Contents, contents_code};

    ghost Value = { Contents R };

    ghost coded = { contents_code R.code };

    ghost use Rattle.std.specs.Prelude.{◌≡◌, ◌≤◌, length};
    ghost use Rattle.world_table.specs.Branch.{IsBranch};

    ghost view = { λ a. record { entries = a.root.entries; blocks = a.blocks } };

    ghost invariant = { λ a. (LEVELS ≤ 12) × IsBranch LEVELS a.root × (a.count ≡ length a.root.entries) };
}

impl<R: Drop, const LEVELS: u32> Table<R, LEVELS> {
    /// A table with no entries.
    pub fn empty(alloc: Global) -> Self
        requires { LEVELS ≤ 12 }
        ensures entries { result.entries ≡ [] }
        ensures blocks { result.blocks ≡ 0 }
    {
        Table {
            root: Place::nothing(),
            count: 0,
            blocks: 0,
            alloc,
        }
    }

    /// Whether a table of this type can have the key.
    pub fn fits(&self, key: u64) -> bool
        ensures { IsTrue result ↔ key < 2 ^ (5 * LEVELS) }
    {
        // The type says that there are at most 12 levels, so that the shift is below 64.
        let _root = &self.root;
        key >> (5 * LEVELS) == 0
    }

    /// How many entries there are.
    pub fn len(&self) -> usize
        ensures value { result ≡ length self.now.entries }
        ensures sorted { IsTrue (is_sorted nat_cmp self.now.entries) }
        ensures within { All (λ e. e.0 < 2 ^ (5 * LEVELS)) self.now.entries }
    {
        self.count
    }

    /// Whether there is no entry.
    pub fn is_empty(&self) -> bool
        ensures { result ≡ (length self.now.entries == 0) }
    {
        self.count == 0
    }

    /// How many blocks were built to make this table of the one that it came from: by `with` or
    /// `without`, or by all changes in place since `empty` or `fork`.
    pub fn blocks(&self) -> usize
        ensures { result ≡ self.now.blocks }
    {
        self.blocks
    }

    /// The record at a key.
    pub fn get(&self, key: u64) -> Option<&R>
        ensures { option_map (λ r. r.now) result ≡ find nat_cmp key self.now.entries }
    {
        let found = self.get_shared(key)?;
        Some(found)
    }

    /// The record at a key, to be shared.
    pub fn get_shared(&self, key: u64) -> Option<&Arc<R>>
        ensures { option_map (λ r. arc_value r.now) result ≡ find nat_cmp key self.now.entries }
    {
        if self.fits(key) {
            self.root.get(key)
        } else {
            None
        }
    }

    /// The first entry at this key or above it.
    pub fn next_from(&self, key: u64) -> Option<(u64, &R)>
        ensures { option_map (λ e. (e.0, e.1.now)) result ≡ first_from key self.now.entries }
    {
        let (found, record) = self.next_shared_from(key)?;
        Some((found, record))
    }

    /// The first entry at this key or above it, to be shared.
    pub fn next_shared_from(&self, key: u64) -> Option<(u64, &Arc<R>)>
        ensures { option_map (λ e. (e.0, arc_value e.1.now)) result ≡ first_from key self.now.entries }
    {
        self.root.next_from(key)
    }

    /// The greatest key.
    pub fn last_key(&self) -> Option<u64>
        ensures { result ≡ last_key self.now.entries }
    {
        self.root.last_key()
    }

    /// The same table, with one more owner of its blocks: nothing is copied.
    pub fn share(&self) -> Result<Self, AllocError>
        ensures { IfOk result (λ t. t ≡ self.now) }
    {
        Ok(Table {
            root: self.root.share()?,
            count: self.count,
            blocks: self.blocks,
            alloc: self.alloc,
        })
    }

    /// The table with a record at a key, in place of the one that may be there.
    pub fn with(&self, key: u64, value: R) -> Result<Self, AllocError>
        requires { key < 2 ^ (5 * LEVELS) }
        ensures entries { IfOk result (λ t. t.entries ≡ put nat_cmp key value self.now.entries) }
        ensures blocks { IfOk result (λ t. t.blocks ≡ LEVELS) }
    {
        self.with_shared(key, Arc::new(self.alloc, value)?)
    }

    /// The same with a record that may have other owners.
    pub fn with_shared(&self, key: u64, value: Arc<R>) -> Result<Self, AllocError>
        requires { key < 2 ^ (5 * LEVELS) }
        ensures entries { IfOk result (λ t. t.entries ≡ put nat_cmp key (arc_value value) self.now.entries) }
        ensures blocks { IfOk result (λ t. t.blocks ≡ LEVELS) }
    {
        let mut builder = BlockBuilder::new(self.alloc);
        let count = match self.get_shared(key) {
            Some(_) => self.count,
            None => self.count + 1,
        };
        let root = self.root.with(&mut builder, LEVELS, key, value)?;
        Ok(Table {
            root,
            count,
            blocks: builder.count,
            alloc: self.alloc,
        })
    }

    /// The table with no entry at a key.
    pub fn without(&self, key: u64) -> Result<Self, AllocError>
        ensures entries { IfOk result (λ t. t.entries ≡ without key self.now.entries) }
        ensures blocks { IfOk result (λ t. t.blocks ≤ LEVELS) }
    {
        match self.get_shared(key) {
            None => Ok(Table {
                root: self.root.share()?,
                count: self.count,
                blocks: 0,
                alloc: self.alloc,
            }),
            Some(_) => {
                let mut builder = BlockBuilder::new(self.alloc);
                let root = self.root.without(&mut builder, key)?;
                Ok(Table {
                    root,
                    count: self.count - 1,
                    blocks: builder.count,
                    alloc: self.alloc,
                })
            }
        }
    }
}
