//! Tables of records, by the numbers of objects and links.
ghost use Rattle.std.specs.Prelude.{◌≡◌, ◌↔◌, ◌<◌, ◌^◌, ◌*◌, ℕ, ℤ, pos, negsuc, true, false, IfOk, IfSome, OnOk, OnErr, IsTrue, is_some, None, option_map, MatchOption};
ghost use Rattle.std.specs.List.{AllByRecursion};
ghost use Rattle.std.specs.Ordering.{nat_cmp};
ghost use Rattle.spec_value.specs.Table.{at, with};
ghost use Rattle.spec_world.specs.Questions.{put_record as changed_record};
ghost use Rattle.world.specs.Numbered.{numbered};
ghost use Rattle.world.specs.Picked.{changed};
ghost use Rattle.world.specs.Revised.{RevisesRecord};

use moo_task::task::Task;
use std::alloc::AllocError;
use view::header::Header;
use view::link::Link;
use view::lists::{Names, Objects};
use view::object::Object;
use view::slot::Slot;
use view::verb::Verbs;
use world_table::Table;
use world_table::revision::Revision;

/// The greatest number that an object or a link may have.
pub(crate) const LAST_NUMBER: u64 = 999_999;

/// The record of a number.
#[tactic(auto, using(crate::proofs::Maps::at_positive, crate::proofs::Maps::at_negative))]
pub(crate) fn record_at<R: Drop>(records: &Table<R, 4>, number: i32) -> Option<&R>
    ensures { option_map (λ r. r.now) result ≡ at (numbered records.now.entries) number }
{
    match number_key(number) {
        Some(key) => records.get(key),
        None => None,
    }
}

/// Another record for a number that has one. After an `Err` the table is as it was.
#[tactic(auto, using(crate::proofs::Maps::at_positive, crate::proofs::Maps::at_negative, crate::proofs::Maps::with_positive))]
pub(crate) fn put_record<R: Drop>(
    records: &mut Table<R, 4>,
    number: i32,
    value: R,
) -> Result<(), AllocError>
    requires { IsTrue (is_some (at (numbered records.old.entries) number)) }
    ensures ok { OnOk result (numbered records.new.entries ≡ with (numbered records.old.entries) number value) }
    ensures err { OnErr result (records.new ≡ records.old) }
{
    let _known = records.len();
    match number_key(number) {
        Some(key) => records.put(key, value),
        None => unreachable!(),
    }
}

/// Another record for a number, or none: only numbers from 0 to 999,999 are given. After an `Err` the table is as it was.
#[tactic(auto, using(crate::proofs::Maps::with_positive, crate::proofs::Maps::without_positive, crate::proofs::Maps::without_negative))]
pub(crate) fn set_record<R: Drop>(
    records: &mut Table<R, 4>,
    number: i32,
    value: Option<R>,
) -> Result<(), AllocError>
    ensures ok { OnOk result (numbered records.new.entries ≡ changed_record (numbered records.old.entries) number value) }
    ensures err { OnErr result (records.new ≡ records.old) }
{
    match (number_key(number), value) {
        (Some(key), Some(value)) if key <= LAST_NUMBER => records.put(key, value),
        (Some(key), None) => records.remove(key),
        (_, _) => Ok(()),
    }
}

/// Another record for a key, or none. After an `Err` the table is as it was.
pub(crate) fn change_record<R: Drop, const LEVELS: u32>(
    records: &mut Table<R, LEVELS>,
    key: u64,
    value: Option<R>,
) -> Result<(), AllocError>
    requires { IfSome value (λ _. key < 2 ^ (5 * LEVELS)) }
    ensures ok { OnOk result (records.new.entries ≡ changed nat_cmp key value records.old.entries) }
    ensures err { OnErr result (records.new ≡ records.old) }
{
    match value {
        Some(value) => records.put(key, value),
        None => records.remove(key),
    }
}

/// Changes the record of a number where it lies, and answers whether it did: it does not where there is none, nor where other records share it.
pub(crate) fn revise_record<R: Drop, E: Revision<R>>(
    records: &mut Table<R, 4>,
    number: i32,
    revision: &E,
) -> Result<bool, AllocError>
    ensures done { IfOk result (λ b. b ≡ true → RevisesRecord (E.makes revision.now) number (numbered records.old.entries) (numbered records.new.entries)) }
    ensures left { IfOk result (λ b. b ≡ false → records.new ≡ records.old) }
    ensures err { OnErr result (records.new ≡ records.old) }
{
    let Some(key) = number_key(number) else {
        return Ok(false);
    };
    if key > LAST_NUMBER {
        return Ok(false);
    }
    let done = records.revise(key, revision)?;
    Ok(done)
}

/// The key of a number, unless it is negative.
pub(crate) fn number_key(number: i32) -> Option<u64>
    ensures { MatchOption result ((n : ℕ) × (number ≡ negsuc n)) (λ k. number ≡ pos k) }
{
    if number < 0 {
        return None;
    }
    Some(number as u64)
}

/// The number that has a key.
pub(crate) fn number_of(key: u64) -> i32
    requires { key < 1048576 }
    ensures { result ≡ pos key }
{
    key as i32
}

/// A record that can be compared.
pub(crate) trait Compared {
    /// Whether two records are the same. It takes no memory.
    fn is_same(&self, other: &Self) -> bool
        ensures { IsTrue result ↔ self.now ≡ other.now };
}

impl Compared for Object {
    fn is_same(&self, other: &Object) -> bool {
        self.same(other)
    }
}

impl Compared for Link {
    fn is_same(&self, other: &Link) -> bool {
        self.same(other)
    }
}

impl Compared for Task {
    fn is_same(&self, other: &Task) -> bool {
        self.same(other)
    }
}

impl Compared for Header {
    fn is_same(&self, other: &Header) -> bool {
        self.same(other)
    }
}

impl Compared for Objects {
    fn is_same(&self, other: &Objects) -> bool {
        self.same(other)
    }
}

impl Compared for Names {
    fn is_same(&self, other: &Names) -> bool {
        self.same(other)
    }
}

impl Compared for Slot {
    fn is_same(&self, other: &Slot) -> bool {
        self.same(other)
    }
}

impl Compared for Verbs {
    fn is_same(&self, other: &Verbs) -> bool {
        self.same(other)
    }
}

impl Compared for i32 {
    fn is_same(&self, other: &i32) -> bool {
        *self == *other
    }
}

impl Compared for (i32, i32) {
    fn is_same(&self, other: &(i32, i32)) -> bool {
        self.0 == other.0 && self.1 == other.1
    }
}

/// Whether two tables have the same records for the same numbers. It takes no memory.
#[tactic(auto, using(crate::proofs::Walks::same_numbered))]
pub(crate) fn same_records<R: Compared + Drop>(a: &Table<R, 4>, b: &Table<R, 4>) -> bool
    ensures { IsTrue result ↔ numbered a.now.entries ≡ numbered b.now.entries }
{
    let _within = a.len();
    same_entries(a, b)
}

/// Whether two tables have the same entries. It takes no memory.
pub(crate) fn same_entries<R: Compared + Drop, const LEVELS: u32>(
    a: &Table<R, LEVELS>,
    b: &Table<R, LEVELS>,
) -> bool
    requires { AllByRecursion (λ e. e.0 < 4294967296) a.now.entries }
    ensures { IsTrue result ↔ a.now.entries ≡ b.now.entries }
{
    let _sorted = (a.len(), b.len());
    let mut key = 0;
    while let Some((number, record)) = a.next_from(key) {
        let Some((other_number, other)) = b.next_from(key) else {
            return false;
        };
        if number != other_number || !record.is_same(other) {
            return false;
        }
        key = number + 1;
    }
    b.next_from(key).is_none()
}
