//! What is chosen of the records of a table.
ghost use Rattle.std.specs.Prelude.{◌≡◌, ◌↔◌, ◌<◌, ◌≤◌, ℕ, Option, Some, None, IfOk, IsTrue, cond, pos, int_le, slice_get};
ghost use Rattle.std.specs.List.{AllByRecursion};
ghost use Rattle.std.specs.Ordering.{int_eq};
ghost use Rattle.world.specs.Numbered.{signed_key};
ghost use Rattle.world.specs.Picked.{chosen};

use crate::records::Compared;
use crate::tasks::id_of;
use moo_task::task::Task;
use std::alloc::{AllocError, Global};
use view::link::Link;
use world_table::Table;

/// Something of some records.
pub(crate) trait Choice<R, T> {
    /// The keys are below it.
    ghost bound: { Self → ℕ };

    /// What is chosen of the record of a key, if anything is.
    ghost picks: { Self → ℕ → R → Option T };

    fn choose(&self, key: u64, found: &R) -> Option<T>
        requires { key < bound self.now }
        ensures { result ≡ picks self.now key found.now };
}

/// The ids of all tasks.
#[derive(Clone, Copy)]
pub(crate) struct AllIds;

impl Choice<Task, i32> for AllIds {
    ghost bound = { λ _. 4294967296 };

    ghost picks = { λ _ k _. Some (signed_key k) };

    fn choose(&self, key: u64, _found: &Task) -> Option<i32> {
        Some(id_of(key))
    }
}

/// The numbers of all objects, or of all links.
#[derive(Clone, Copy)]
pub(crate) struct AllNumbers;

impl<R> Choice<R, i32> for AllNumbers {
    ghost bound = { λ _. 1048576 };

    ghost picks = { λ _ k _. Some (pos k) };

    fn choose(&self, key: u64, _found: &R) -> Option<i32> {
        Some(key as i32)
    }
}

/// The ids of the tasks that read on a connection, of the connections by the ids of their readers.
#[derive(Clone, Copy)]
pub(crate) struct ReadersOf {
    pub(crate) connection: i32,
}

impl Choice<i32, i32> for ReadersOf {
    ghost bound = { λ _. 4294967296 };

    ghost picks = { λ s k c. cond (int_eq s.connection c) (Some (signed_key k)) None };

    fn choose(&self, key: u64, connection: &i32) -> Option<i32> {
        if self.connection == *connection {
            Some(id_of(key))
        } else {
            None
        }
    }
}

/// The numbers of the links on which players have logged in, with the players.
#[derive(Clone, Copy)]
pub(crate) struct LoggedIn;

impl Choice<Link, (i32, i32)> for LoggedIn {
    ghost bound = { λ _. 1048576 };

    ghost picks = { λ _ k l. cond (int_le (pos 0) l.person) (Some (pos k, l.person)) None };

    fn choose(&self, key: u64, link: &Link) -> Option<(i32, i32)> {
        if 0 <= link.person {
            Some((key as i32, link.person))
        } else {
            None
        }
    }
}

/// All that is chosen of a table, in the order of its keys.
pub(crate) fn gather<R: Drop, T: Drop, C: Choice<R, T>, const LEVELS: u32>(
    alloc: Global,
    records: &Table<R, LEVELS>,
    choice: &C,
) -> Result<Vec<T>, AllocError>
    requires bound { C.bound choice.now ≤ 4294967296 }
    requires keys { AllByRecursion (λ e. e.0 < C.bound choice.now) records.now.entries }
    ensures { IfOk result (λ items. items.items ≡ chosen (C.picks choice.now) records.now.entries) }
{
    let _sorted = records.len();
    let mut items = Vec::new(alloc);
    let mut key = 0;
    while let Some((number, record)) = records.next_from(key) {
        if let Some(item) = choice.choose(number, record) {
            items.push(item)?;
        }
        key = number + 1;
    }
    Ok(items)
}

/// Whether this is all that is chosen of a table, in the order of its keys. It takes no memory.
pub(crate) fn is_gathered<R: Drop, T: Compared + Drop, C: Choice<R, T>, const LEVELS: u32>(
    records: &Table<R, LEVELS>,
    choice: &C,
    items: &[T],
) -> bool
    requires bound { C.bound choice.now ≤ 4294967296 }
    requires keys { AllByRecursion (λ e. e.0 < C.bound choice.now) records.now.entries }
    ensures { IsTrue result ↔ chosen (C.picks choice.now) records.now.entries ≡ items.now }
{
    let _sorted = records.len();
    let mut count = 0;
    let mut key = 0;
    while let Some((number, record)) = records.next_from(key) {
        if let Some(item) = choice.choose(number, record) {
            if !is_at(items, count, &item) {
                return false;
            }
            count += 1;
        }
        key = number + 1;
    }
    count == items.len()
}

/// Whether this item is there at a place.
pub(crate) fn is_at<T: Compared>(items: &[T], place: usize, item: &T) -> bool
    ensures { IsTrue result ↔ slice_get items.now place ≡ Some item.now }
{
    place < items.len() && items[place].is_same(item)
}
