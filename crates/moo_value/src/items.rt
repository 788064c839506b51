//! The shared items of lists.
ghost use Rattle.std.specs.Prelude.{◌≡◌, ◌<◌, ◌≤◌, ◌++◌, ◌∷◌, [], ◌+◌, length, take, drop, IfOk, OnOk, OnErr, IsTrue, min, is_ok, Some, if◌then◌else◌};
ghost use Rattle.std.specs.Arc.{arc_value};
ghost use Rattle.spec_value.specs.Datum.{of_list, append, are_values, data_weight};
ghost use Rattle.spec_value.specs.Places.{item_at, with_item, inserted, without};
ghost use Rattle.moo_value.specs.Parts.{with_part};

use crate::value::Value;
use std::alloc::{AllocError, Global};
use std::mem;
use std::sync::Arc;

// What items weigh, or the greatest number of 32 bits where that is more.
pub(crate) fn weight(items: &[Value]) -> u32
    ensures { result ≡ min (data_weight (of_list items.now)) u32.MAX }
{
    let mut sum = 0u32;
    for item in items {
        sum = sum.saturating_add(item.kept_weight());
    }
    sum
}

// What items weigh but for one, given what all of them weigh.
pub(crate) fn weight_without(items: &[Value], whole: u32, place: usize) -> u32
    requires inside { place < length items.now }
    requires kept { whole ≡ min (data_weight (of_list items.now)) u32.MAX }
    ensures { result ≡ min (data_weight (without (of_list items.now) place)) u32.MAX }
{
    if whole == u32::MAX {
        weight(&items[..place]).saturating_add(weight(&items[place + 1..]))
    } else {
        whole - items[place].kept_weight()
    }
}

// What items weigh but for a part of them, given what all of them weigh. A part whose end is before its start leaves out nothing, and what
// lies between counts twice.
pub(crate) fn weight_around(items: &[Value], whole: u32, start: usize, end: usize) -> u32
    requires starts { start ≤ length items.now }
    requires ends { end ≤ length items.now }
    requires kept { whole ≡ min (data_weight (of_list items.now)) u32.MAX }
    ensures { result ≡ min (data_weight (of_list (take start items.now)) + data_weight (of_list (drop end items.now))) u32.MAX }
{
    if end < start || whole == u32::MAX {
        weight(&items[..start]).saturating_add(weight(&items[end..]))
    } else {
        whole - weight(&items[start..end])
    }
}

// Every item is a value.
pub(crate) fn know_all(items: &[Value])
    ensures { IsTrue (are_values (of_list items.now)) }
{
    for item in items {
        item.know();
    }
}

/// Puts copies of items behind others.
pub fn push_all(items: &mut Vec<Value>, more: &[Value]) -> Result<(), AllocError>
    ensures { OnOk result (items.new.items ≡ items.old.items ++ more.now) }
{
    for item in more {
        items.push(item.clone()?)?;
    }
    Ok(())
}

// Items, taken from where they are shared if nobody else shares them, else copies of them.
pub(crate) fn taken(alloc: Global, items: Arc<Vec<Value>>) -> Result<Vec<Value>, AllocError>
    ensures { IfOk result (λ v. v.items ≡ (arc_value items).items) }
{
    match Arc::try_unwrap(items) {
        Ok(items) => Ok(items),
        Err(items) => copied(alloc, items.as_slice()),
    }
}

// Where there are other owners, gives this one a copy of its own with room for more, so that what is put in next copies nothing again.
fn unshare(items: &mut Arc<Vec<Value>>, more: usize) -> Result<(), AllocError>
    ensures { (arc_value items.new).items ≡ (arc_value items.old).items }
{
    if Arc::strong_count(items) == 1 {
        return Ok(());
    }
    let alloc = *items.allocator();
    let mut copy = Vec::with_capacity(alloc, items.len().saturating_add(more))?;
    push_all(&mut copy, items)?;
    *items = Arc::new(alloc, copy)?;
    Ok(())
}

#[inline(always)]
pub(crate) fn push(items: &mut Arc<Vec<Value>>, item: Value) -> Result<(), AllocError>
    ensures { let old = of_list (arc_value items.old).items in of_list (arc_value items.new).items ≡ (if is_ok result then append old item else old) }
{
    match Arc::get_mut(items) {
        Some(own) => {
            put_last(own, item)?;
            Ok(())
        }
        None => push_shared(items, item),
    }
}

// One item more. It is put where it stays: one that is handed to another function is copied, and the processor waits for the copy.
#[inline(always)]
fn put_last(items: &mut Vec<Value>, item: Value) -> Result<(), AllocError>
    ensures ok { OnOk result (items.new.items ≡ items.old.items ++ item ∷ []) }
    ensures err { OnErr result (items.new.items ≡ items.old.items) }
{
    if items.len() == items.capacity() {
        items.reserve(1)?;
    }
    items.push_reserved(item);
    Ok(())
}

// The same where there may be other owners.
#[inline(never)]
fn push_shared(items: &mut Arc<Vec<Value>>, item: Value) -> Result<(), AllocError>
    ensures { let old = of_list (arc_value items.old).items in of_list (arc_value items.new).items ≡ (if is_ok result then append old item else old) }
{
    unshare(items, 1)?;
    let list = Arc::make_mut(items)?;
    list.push(item)?;
    Ok(())
}

pub(crate) fn replace(
    items: &mut Arc<Vec<Value>>,
    place: usize,
    item: Value,
) -> Result<Value, AllocError>
    requires { place < length (arc_value items.old).items }
    ensures after { let old = of_list (arc_value items.old).items in of_list (arc_value items.new).items ≡ (if is_ok result then with_item old place item else old) }
    ensures item { IfOk result (λ v. item_at (of_list (arc_value items.old).items) place ≡ Some v) }
{
    let list = Arc::make_mut(items)?;
    Ok(mem::replace(&mut list[place], item))
}

pub(crate) fn insert(
    items: &mut Arc<Vec<Value>>,
    place: usize,
    item: Value,
) -> Result<(), AllocError>
    requires { place ≤ length (arc_value items.old).items }
    ensures { let old = of_list (arc_value items.old).items in of_list (arc_value items.new).items ≡ (if is_ok result then inserted old place item else old) }
{
    unshare(items, 1)?;
    let list = Arc::make_mut(items)?;
    list.insert(place, item)?;
    Ok(())
}

pub(crate) fn remove(items: &mut Arc<Vec<Value>>, place: usize) -> Result<Value, AllocError>
    requires { place < length (arc_value items.old).items }
    ensures after { let old = of_list (arc_value items.old).items in of_list (arc_value items.new).items ≡ (if is_ok result then without old place else old) }
    ensures item { IfOk result (λ v. item_at (of_list (arc_value items.old).items) place ≡ Some v) }
{
    let list = Arc::make_mut(items)?;
    Ok(list.remove(place))
}

// Puts copies of other items in the place of a part, which is left out. A part whose end is before its start leaves out nothing, and what
// lies between stands twice.
pub(crate) fn replace_part(
    items: &mut Arc<Vec<Value>>,
    start: usize,
    end: usize,
    between: &[Value],
) -> Result<(), AllocError>
    requires starts { start ≤ length (arc_value items.old).items }
    requires ends { end ≤ length (arc_value items.old).items }
    ensures { let old = of_list (arc_value items.old).items in of_list (arc_value items.new).items ≡ (if is_ok result then with_part old start end (of_list between.now) else old) }
{
    let alloc = *items.allocator();
    if end < start || Arc::strong_count(items) != 1 {
        let copy = with_part_copied(alloc, items, start, end, between)?;
        *items = Arc::new(alloc, copy)?;
        return Ok(());
    }
    let more = copied(alloc, between)?;
    let list = Arc::make_mut(items)?;
    list.splice(start..end, more)?;
    Ok(())
}

/// Copies of items.
pub fn copied(alloc: Global, items: &[Value]) -> Result<Vec<Value>, AllocError>
    ensures { IfOk result (λ v. v.items ≡ items.now) }
{
    let mut copy = Vec::with_capacity(alloc, items.len())?;
    push_all(&mut copy, items)?;
    Ok(copy)
}

// Copies of items with others in the place of a part.
fn with_part_copied(
    alloc: Global,
    items: &[Value],
    start: usize,
    end: usize,
    between: &[Value],
) -> Result<Vec<Value>, AllocError>
    requires starts { start ≤ length items.now }
    requires ends { end ≤ length items.now }
    ensures { IfOk result (λ v. of_list v.items ≡ with_part (of_list items.now) start end (of_list between.now)) }
{
    let count = start
        .saturating_add(between.len())
        .saturating_add(items.len() - end);
    let mut copy = Vec::with_capacity(alloc, count)?;
    push_all(&mut copy, &items[..start])?;
    push_all(&mut copy, between)?;
    push_all(&mut copy, &items[end..])?;
    Ok(copy)
}
