//! Indexes and ranges of texts and lists, read and written (Programmer's Manual, "Indexing into Lists and Strings").
//!
//! Places count from 1. A base that is neither text nor list, and an index that is no integer, raise `E_TYPE`; a place out of range
//! raises `E_RANGE`; a value that was written and weighs too much raises `E_QUOTA`, a part that is read is not weighed.
ghost use Rattle.std.specs.Prelude.{◌≡◌, ◌<◌, ◌≤◌, ◌++◌, length, IfOk, IfSome, OnOk, IsTrue};
ghost use Rattle.spec_value.specs.Answer.{limited as limited_of};
ghost use Rattle.spec_value.specs.Datum.{is_text, of_list};
ghost use Rattle.spec_value.specs.Indexing.{natural as natural_of, place_in as place_in_of, part_of, cut_of, text_index as text_index_of, list_index as list_index_of, text_part, list_part, text_with, text_with_part, index_value, range_value, set_index_value, set_range_value};
ghost use Rattle.spec_value.specs.Places.{item_count, length_of_list, list_with};
ghost use Rattle.moo_value.specs.Answers.{answer_of};
ghost use Rattle.moo_value.specs.Parts.{list_with_part};

use moo_value::answer::{Answer, limited};
use moo_value::error::MooError;
use moo_value::items::push_all;
use moo_value::text::{Text, back, front};
use moo_value::value::{Shown, Value};
use std::alloc::{AllocError, Global};

/// The character or item at a place.
pub fn index(alloc: Global, base: &Value, place: &Value) -> Result<Answer, AllocError>
    ensures { IfOk result (λ r. answer_of r ≡ index_value base.now place.now) }
{
    base.know();
    match (base.shown(), place.shown()) {
        (Shown::Text(text), Shown::Integer(place)) => text_index(alloc, text, place),
        (Shown::List(items), Shown::Integer(place)) => list_index(items, place),
        _ => Ok(Err(MooError::TypeMismatch)),
    }
}

fn text_index(alloc: Global, text: &str, place: i32) -> Result<Answer, AllocError>
    requires { IsTrue (is_text text.now) }
    ensures { IfOk result (λ r. answer_of r ≡ text_index_of text.now (place_in_of (length text.now) place)) }
{
    let Some(place) = place_in(text.len(), place) else {
        return Ok(Err(MooError::RangeError));
    };
    let character = front(back(text, place), 1);
    Ok(Ok(Value::text(Text::from_str(alloc, character)?)))
}

fn list_index(items: &[Value], place: i32) -> Result<Answer, AllocError>
    ensures { IfOk result (λ r. answer_of r ≡ list_index_of (of_list items.now) (place_in_of (item_count (of_list items.now)) place)) }
{
    let Some(place) = place_in(items.len(), place) else {
        return Ok(Err(MooError::RangeError));
    };
    Ok(Ok(items[place].clone()?))
}

/// The part from one place to another; it is empty where the first is above the second.
pub fn range(alloc: Global, base: &Value, first: &Value, last: &Value) -> Result<Answer, AllocError>
    ensures { IfOk result (λ r. answer_of r ≡ range_value base.now first.now last.now) }
{
    base.know();
    match (base.shown(), first.shown(), last.shown()) {
        (Shown::Text(text), Shown::Integer(first), Shown::Integer(last)) => text_range(
            alloc, text, first, last,
        ),
        (Shown::List(items), Shown::Integer(first), Shown::Integer(last)) => list_range(
            alloc, items, first, last,
        ),
        _ => Ok(Err(MooError::TypeMismatch)),
    }
}

fn text_range(alloc: Global, text: &str, first: i32, last: i32) -> Result<Answer, AllocError>
    requires { IsTrue (is_text text.now) }
    ensures { IfOk result (λ r. answer_of r ≡ text_part text.now (part_of (length text.now) first last)) }
{
    let Some((start, end)) = part(text.len(), first, last) else {
        return Ok(Err(MooError::RangeError));
    };
    let part = front(back(text, start), end - start);
    Ok(Ok(Value::text(Text::from_str(alloc, part)?)))
}

fn list_range(alloc: Global, items: &[Value], first: i32, last: i32) -> Result<Answer, AllocError>
    ensures { IfOk result (λ r. answer_of r ≡ list_part (of_list items.now) (part_of (item_count (of_list items.now)) first last)) }
{
    let Some((start, end)) = part(items.len(), first, last) else {
        return Ok(Err(MooError::RangeError));
    };
    let mut chosen = Vec::new(alloc);
    push_all(&mut chosen, &items[start..end])?;
    Ok(Ok(Value::list(chosen)?))
}

/// The base with another character or item at a place. A list that has no other owner is changed in place.
pub fn set_index(
    alloc: Global,
    base: Value,
    place: &Value,
    value: Value,
) -> Result<Answer, AllocError>
    ensures { IfOk result (λ r. answer_of r ≡ set_index_value base place.now value) }
{
    base.know();
    value.know();
    match (base.shown(), place.shown(), value.shown()) {
        (Shown::Text(text), Shown::Integer(place), Shown::Text(character)) => {
            set_character(alloc, text, place, character)
        }
        (Shown::List(items), Shown::Integer(place), _) => match item_place(items, place) {
            Some(place) => set_item(base, place, value),
            None => Ok(Err(MooError::RangeError)),
        },
        _ => Ok(Err(MooError::TypeMismatch)),
    }
}

fn set_character(
    alloc: Global,
    text: &str,
    place: i32,
    character: &str,
) -> Result<Answer, AllocError>
    requires text { IsTrue (is_text text.now) }
    requires character { IsTrue (is_text character.now) }
    ensures { IfOk result (λ r. answer_of r ≡ text_with text.now (place_in_of (length text.now) place) character.now) }
{
    let Some(place) = place_in(text.len(), place) else {
        return Ok(Err(MooError::RangeError));
    };
    if character.len() != 1 {
        return Ok(Err(MooError::InvalidArgument));
    }
    let text = Text::joined(alloc, front(text, place), character, back(text, place + 1))?;
    Ok(limited(Value::text(text)))
}

/// The base with another part from one place to another: what lies before the first, then the value, then what lies behind the last. A list that
/// has no other owner is changed in place, where the first place is not behind the last but one.
pub fn set_range(
    alloc: Global,
    base: Value,
    first: &Value,
    last: &Value,
    value: &Value,
) -> Result<Answer, AllocError>
    ensures { IfOk result (λ r. answer_of r ≡ set_range_value base first.now last.now value.now) }
{
    base.know();
    value.know();
    match (base.shown(), first.shown(), last.shown(), value.shown()) {
        (Shown::Text(text), Shown::Integer(first), Shown::Integer(last), Shown::Text(between)) => {
            set_text_range(alloc, text, first, last, between)
        }
        (Shown::List(items), Shown::Integer(first), Shown::Integer(last), Shown::List(between)) => {
            match item_cut(items, first, last) {
                Some((start, end)) => set_part(base, start, end, between),
                None => Ok(Err(MooError::RangeError)),
            }
        }
        _ => Ok(Err(MooError::TypeMismatch)),
    }
}

fn set_text_range(
    alloc: Global,
    text: &str,
    first: i32,
    last: i32,
    between: &str,
) -> Result<Answer, AllocError>
    requires text { IsTrue (is_text text.now) }
    requires between { IsTrue (is_text between.now) }
    ensures { IfOk result (λ r. answer_of r ≡ text_with_part text.now (cut_of (length text.now) first last) between.now) }
{
    let Some((start, end)) = cut(text.len(), first, last) else {
        return Ok(Err(MooError::RangeError));
    };
    let text = Text::joined(alloc, front(text, start), between, back(text, end))?;
    Ok(limited(Value::text(text)))
}

// The list with other items in the place of a part.
fn set_part(
    mut list: Value,
    start: usize,
    end: usize,
    between: &[Value],
) -> Result<Answer, AllocError>
    requires starts { start ≤ length_of_list list }
    requires ends { end ≤ length_of_list list }
    ensures { IfOk result (λ r. answer_of r ≡ limited_of (list_with_part list start end (of_list between.now))) }
{
    list.replace_part(start, end, between)?;
    Ok(limited(list))
}

// The list with another item at a place.
fn set_item(mut list: Value, place: usize, item: Value) -> Result<Answer, AllocError>
    requires { place < length_of_list list }
    ensures { IfOk result (λ r. answer_of r ≡ limited_of (list_with list place item)) }
{
    list.replace(place, item)?;
    Ok(limited(list))
}

/// A place that is counted from 1, among so many, counted from 0.
pub fn place_in(count: usize, place: i32) -> Option<usize>
    ensures place { result ≡ place_in_of count place }
    ensures inside { IfSome result (λ i. i < count) }
{
    if place < 1 {
        return None;
    }
    let place = natural(place) - 1;
    if place < count { Some(place) } else { None }
}

/// The same among the items of a list.
pub fn item_place(items: &[Value], place: i32) -> Option<usize>
    ensures place { result ≡ place_in_of (item_count (of_list items.now)) place }
    ensures inside { IfSome result (λ i. i < item_count (of_list items.now)) }
{
    place_in(items.len(), place)
}

// How many places are left out before a range, and where it ends.
fn part(count: usize, first: i32, last: i32) -> Option<(usize, usize)>
    ensures part { result ≡ part_of count first last }
    ensures inside { IfSome result (λ p. (p.0 ≤ p.1) × (p.1 ≤ count)) }
{
    if last < first {
        return Some((0, 0));
    }
    let first = natural(first);
    let last = natural(last);
    if first == 0 || last > count {
        return None;
    }
    Some((first - 1, last))
}

// How many places stay before a range that is replaced, and how many do not stay behind it.
fn cut(count: usize, first: i32, last: i32) -> Option<(usize, usize)>
    ensures cut { result ≡ cut_of count first last }
    ensures inside { IfSome result (λ p. (p.0 ≤ count) × (p.1 ≤ count)) }
{
    let start = natural(first).saturating_sub(1);
    if last < 0 || start > count {
        return None;
    }
    Some((start, natural(last).min(count)))
}

// The same among the items of a list.
fn item_cut(items: &[Value], first: i32, last: i32) -> Option<(usize, usize)>
    ensures cut { result ≡ cut_of (item_count (of_list items.now)) first last }
    ensures inside { IfSome result (λ p. (p.0 ≤ item_count (of_list items.now)) × (p.1 ≤ item_count (of_list items.now))) }
{
    cut(items.len(), first, last)
}

/// The number, or 0 for a negative one.
pub fn natural(number: i32) -> usize
    ensures { result ≡ natural_of number }
{
    if number < 0 {
        0
    } else {
        number.unsigned_abs() as usize
    }
}
