//! Pairs of a moment and a key.
ghost use Rattle.std.specs.Prelude.{◌≡◌, ◌+◌, ◌<◌, ◌==◌, [], length, unwrap_or, IfOk, IfSome};
ghost use Rattle.std.specs.List.{All};
ghost use Rattle.std.specs.List.Sorted.{IsStrictlySortedBy};
ghost use Rattle.std.specs.Ordering.{nat_cmp};
ghost use Rattle.std.specs.FinMap.{put};
ghost use Rattle.due_table.specs.Held.{IsSound, pairs_of, keys_at, kept_at};
ghost use Rattle.due_table.specs.Order.{with_item, without_item, first_item_from};
ghost use Rattle.due_table.specs.Pairs.{pair_cmp, with_pair, without_pair, first_pair_from};

use crate::keys::Keys;
use std::alloc::{AllocError, Global};
use std::marker::Model;
use world_table::Table;

/// A set of pairs of a moment and a key, in the order of moments, and at one moment of keys. Both
/// have 32 bits.
///
/// A change gives a new table and leaves the old one as it was, also where memory runs out.
#[derive(Drop)]
pub struct DueTable {
    // no moment has an empty set of keys
    moments: Table<Keys, 7>,
    alloc: Global,
}

impl Model for DueTable {
    ghost use Rattle.std.specs.Prelude.{ℕ, List};
    ghost use Rattle.std.specs.Coded.{coded×, coded_ℕ, coded_list};
    ghost use Rattle.due_table.specs.Held.{pairs_of, IsSound};

    ghost Value = { List (ℕ × ℕ) };

    ghost coded = { coded_list (coded× coded_ℕ coded_ℕ) };

    ghost view = { λ a. pairs_of a.moments.entries };

    ghost invariant = { λ a. IsSound a.moments.entries };
}

impl DueTable {
    /// No pairs.
    pub fn empty(alloc: Global) -> DueTable
        ensures { result ≡ [] }
    {
        DueTable {
            moments: Table::empty(alloc),
            alloc,
        }
    }

    /// Whether there is no pair.
    pub fn is_empty(&self) -> bool
        ensures value { result ≡ (length self.now == 0) }
        ensures sorted { IsStrictlySortedBy (pair_cmp nat_cmp) self.now }
        ensures within { All (λ p. (p.0 < 4294967296) × (p.1 < 4294967296)) self.now }
    {
        self.moments.is_empty()
    }

    /// The first pair that is this one or after it. It takes no memory.
    pub fn next_from(&self, moment: u32, key: u64) -> Option<(u32, u64)>
        ensures value { result ≡ first_pair_from (moment, key) self.now }
        ensures within { IfSome result (λ p. p.1 < 4294967296) }
    {
        match key_from(&self.moments, moment, key) {
            Some(found) => Some((moment, found)),
            None => first_after(&self.moments, moment),
        }
    }

    /// The same pairs, with one more owner.
    pub fn share(&self) -> Result<DueTable, AllocError>
        ensures { IfOk result (λ t. t ≡ self.now) }
    {
        Ok(DueTable {
            moments: self.moments.share()?,
            alloc: self.alloc,
        })
    }

    /// The table with this pair, once.
    pub fn with(&self, moment: u32, key: u64) -> Result<DueTable, AllocError>
        requires { key < 4294967296 }
        ensures { IfOk result (λ t. t ≡ with_pair (moment, key) self.now) }
    {
        let moments = with_key(&self.moments, self.alloc, moment, key)?;
        Ok(DueTable {
            moments,
            alloc: self.alloc,
        })
    }

    /// The table without this pair.
    pub fn without(&self, moment: u32, key: u64) -> Result<DueTable, AllocError>
        ensures { IfOk result (λ t. t ≡ without_pair (moment, key) self.now) }
    {
        let moments = without_key(&self.moments, moment, key)?;
        Ok(DueTable {
            moments,
            alloc: self.alloc,
        })
    }
}

// The first key of a moment that is this one or after it.
fn key_from(moments: &Table<Keys, 7>, moment: u32, key: u64) -> Option<u64>
    ensures { result ≡ first_item_from nat_cmp key (keys_at moment moments.now.entries) }
{
    match moments.get(moment as u64) {
        Some(keys) => keys.next_from(key),
        None => None,
    }
}

// The first pair of the moments after this one.
fn first_after(moments: &Table<Keys, 7>, moment: u32) -> Option<(u32, u64)>
    requires { IsSound moments.now.entries }
    ensures { result ≡ first_pair_from (moment + 1, 0) (pairs_of moments.now.entries) }
{
    match moments.next_from(moment as u64 + 1) {
        Some((later, keys)) => match keys.next_from(0) {
            Some(key) => Some((later as u32, key)),
            None => None,
        },
        None => None,
    }
}

fn with_key(
    moments: &Table<Keys, 7>,
    alloc: Global,
    moment: u32,
    key: u64,
) -> Result<Table<Keys, 7>, AllocError>
    requires bound { key < 4294967296 }
    requires sound { IsSound moments.now.entries }
    ensures { IfOk result (λ t. t.entries ≡ put nat_cmp moment (with_item nat_cmp key (keys_at moment moments.now.entries)) moments.now.entries) }
{
    match moments.get(moment as u64) {
        None => moments.with(moment as u64, Keys::one(key)),
        Some(keys) => if keys.has(key) {
            moments.share()
        } else {
            moments.with(moment as u64, keys.with(alloc, key)?)
        }
    }
}

fn without_key(
    moments: &Table<Keys, 7>,
    moment: u32,
    key: u64,
) -> Result<Table<Keys, 7>, AllocError>
    requires { IsSound moments.now.entries }
    ensures { IfOk result (λ t. t.entries ≡ kept_at moment (without_item nat_cmp key (keys_at moment moments.now.entries)) moments.now.entries) }
{
    match moments.get(moment as u64) {
        None => moments.share(),
        Some(keys) => if keys.has(key) {
            kept(moments, moment, keys.without(key)?)
        } else {
            moments.share()
        }
    }
}

// The moments with these keys at one of them, or without it where there are none.
fn kept(
    moments: &Table<Keys, 7>,
    moment: u32,
    keys: Option<Keys>,
) -> Result<Table<Keys, 7>, AllocError>
    requires { IfSome keys (λ ks. 0 < length ks) }
    ensures { IfOk result (λ t. t.entries ≡ kept_at moment (unwrap_or keys []) moments.now.entries) }
{
    match keys {
        None => moments.without(moment as u64),
        Some(keys) => moments.with(moment as u64, keys),
    }
}
