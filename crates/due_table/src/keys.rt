//! The keys of one moment.
ghost use Rattle.std.specs.Prelude.{◌≡◌, ℕ, ◌<◌, [], ◌∷◌, length, map, IfOk, IfSome, unwrap_or};
ghost use Rattle.std.specs.Bool.{OnTrue, OnFalse};
ghost use Rattle.std.specs.Ordering.{nat_cmp};
ghost use Rattle.due_table.specs.Order.{with_item, without_item, first_item_from};

use std::alloc::{AllocError, Global};
use std::marker::Model;
use world_table::Table;

/// Keys in rising order. Most moments have one, and no block is built for it.
#[derive(Drop)]
pub(crate) struct Keys {
    held: Held,
}

#[derive(Drop)]
enum Held {
    One(u32),
    Several(Table<(), 7>),
}

impl Model for Keys {
    ghost use Rattle.std.specs.Prelude.{ℕ, List};
    ghost use Rattle.std.specs.Coded.{coded_ℕ, coded_list};
    ghost use Rattle.due_table.specs.Held.{keys_of};

    ghost Value = { List ℕ };

    ghost coded = { coded_list coded_ℕ };

    ghost view = { λ a. keys_of a.held };
}

impl Keys {
    /// One key.
    pub(crate) fn one(key: u64) -> Keys
        requires { key < 4294967296 }
        ensures { result ≡ key ∷ [] }
    {
        Keys {
            held: Held::One(key as u32),
        }
    }

    /// Whether this is one of them.
    pub(crate) fn has(&self, key: u64) -> bool
        ensures there { OnTrue result (with_item nat_cmp key self.now ≡ self.now) }
        ensures absent { OnFalse result (without_item nat_cmp key self.now ≡ self.now) }
    {
        match &self.held {
            Held::One(one) => *one as u64 == key,
            Held::Several(table) => is_in(table, key),
        }
    }

    /// The first that is this one or after it.
    pub(crate) fn next_from(&self, key: u64) -> Option<u64>
        ensures { result ≡ first_item_from nat_cmp key self.now }
    {
        match &self.held {
            Held::One(one) => only_from(*one as u64, key),
            Held::Several(table) => next_in(table, key),
        }
    }

    /// These and one more.
    pub(crate) fn with(&self, alloc: Global, key: u64) -> Result<Keys, AllocError>
        requires { key < 4294967296 }
        ensures { IfOk result (λ keys. keys ≡ with_item nat_cmp key self.now) }
    {
        match &self.held {
            Held::One(one) => Ok(several(both(alloc, *one, key)?)),
            Held::Several(table) => Ok(several(table.with(key, ())?)),
        }
    }

    /// The others, if there are any.
    pub(crate) fn without(&self, key: u64) -> Result<Option<Keys>, AllocError>
        ensures left { IfOk result (λ left. unwrap_or left [] ≡ without_item nat_cmp key self.now) }
        ensures some { IfOk result (λ left. IfSome left (λ keys. 0 < length keys)) }
    {
        match &self.held {
            Held::One(one) => Ok(other_one(*one, key)),
            Held::Several(table) => Ok(left_of(table.without(key)?)),
        }
    }
}

fn several(table: Table<(), 7>) -> Keys
    ensures { result ≡ map (λ e. e.0) table.entries }
{
    Keys {
        held: Held::Several(table),
    }
}

fn is_in(table: &Table<(), 7>, key: u64) -> bool
    ensures there { OnTrue result (with_item nat_cmp key (map (λ e. e.0) table.now.entries) ≡ map (λ e. e.0) table.now.entries) }
    ensures absent { OnFalse result (without_item nat_cmp key (map (λ e. e.0) table.now.entries) ≡ map (λ e. e.0) table.now.entries) }
{
    let _sorted = table.len();
    table.get(key).is_some()
}

fn only_from(one: u64, key: u64) -> Option<u64>
    ensures { result ≡ first_item_from nat_cmp key (one ∷ []) }
{
    if key <= one { Some(one) } else { None }
}

fn next_in(table: &Table<(), 7>, key: u64) -> Option<u64>
    ensures { result ≡ first_item_from nat_cmp key (map (λ e. e.0) table.now.entries) }
{
    match table.next_from(key) {
        Some((found, _)) => Some(found),
        None => None,
    }
}

fn both(alloc: Global, one: u32, key: u64) -> Result<Table<(), 7>, AllocError>
    requires { key < 4294967296 }
    ensures { IfOk result (λ t. map (λ e. e.0) t.entries ≡ with_item nat_cmp key (one ∷ [])) }
{
    let first = Table::empty(alloc).with(one as u64, ())?;
    first.with(key, ())
}

fn other_one(one: u32, key: u64) -> Option<Keys>
    ensures left { unwrap_or result [] ≡ without_item nat_cmp key (one ∷ []) }
    ensures some { IfSome result (λ keys. 0 < length keys) }
{
    if one as u64 == key {
        None
    } else {
        Some(Keys::one(one as u64))
    }
}

fn left_of(table: Table<(), 7>) -> Option<Keys>
    ensures left { unwrap_or result [] ≡ map (λ e. e.0) table.entries }
    ensures some { IfSome result (λ keys. 0 < length keys) }
{
    if table.is_empty() {
        None
    } else {
        Some(several(table))
    }
}
