//! The default that is wanted next, told from what is counted of the items.
ghost use Rattle.std.specs.Prelude.{◌≡◌, ◌+◌, ◌<◌, ℕ, length, map, true, IfSome, IsTrue};
ghost use Rattle.spec_value.specs.Datum.{Data, list as list_of};
ghost use Rattle.spec_value.specs.Places.{item_count};
ghost use Rattle.moo_code.specs.Machine.{place_for};
ghost use Rattle.moo_program.specs.Counts.{kind_meant, are_placed};
ghost use Rattle.moo_program.specs.Meaning.{part_meant};
ghost use Rattle.local_code.specs.Wanting.{is_default as is_default_of, IsNext, IsLeftOut, Wants};

use moo_program::instruction::{Part, Scatter, Slot};
use moo_value::value::{Shown, Value};

/// Where the default of the next item begins that has one, behind so many, if a list leaves that item out. None where this is not so, or is
/// not told by what is counted.
pub fn next_wanted(scatter: &Scatter, done: usize, list: &Value) -> Option<usize>
    ensures { IfSome result (λ p. Wants scatter.now.items.items (map part_meant scatter.now.defaults.items) done list.now p) }
{
    match list.shown() {
        Shown::List(items) => {
            let place = next_of(scatter, done, items.len())?;
            Some(place)
        }
        _ => None,
    }
}

// The same of a list of so many items.
fn next_of(scatter: &Scatter, done: usize, count: usize) -> Option<usize>
    ensures { IfSome result (λ p. (xs : Data) → item_count xs ≡ count → Wants scatter.now.items.items (map part_meant scatter.now.defaults.items) done (list_of xs) p) }
{
    let items = scatter.items.as_slice();
    let parts = scatter.defaults.as_slice();
    let item = next_default(done, items)?;
    if is_left_out(scatter, item, count) {
        let place = part_among(parts, item + 1)?;
        Some(place)
    } else {
        None
    }
}

// The place of the first item with a default behind so many.
fn next_default(done: usize, items: &[Slot]) -> Option<usize>
    ensures within { IfSome result (λ i. i < length items.now) }
    ensures next { IfSome result (λ i. IsNext items.now done i) }
{
    for i in done..items.len() {
        if is_default(&items[i]) {
            return Some(i);
        }
    }
    None
}

fn is_default(item: &Slot) -> bool
    ensures { result ≡ is_default_of item.now }
{
    match item {
        Slot::Default(_) => true,
        Slot::Required(_) | Slot::Optional(_) | Slot::Rest(_) => false,
    }
}

// Whether a list of so many items has enough for the required ones, and nothing for the optional item at a place.
fn is_left_out(scatter: &Scatter, place: usize, count: usize) -> bool
    ensures { IsTrue result → IsLeftOut (map kind_meant scatter.now.items.items) place count }
{
    let before = scatter.before.as_slice();
    place < before.len()
        && scatter.required <= count
        && count - scatter.required <= before[place] as usize
}

// Where the part with a number begins, if it is found among these, whose numbers ascend.
fn part_among(parts: &[Part], number: usize) -> Option<usize>
    requires { are_placed parts.now ≡ true }
    ensures { IfSome result (λ p. (after : ℕ) → place_for after (map part_meant parts.now) number ≡ p) }
{
    let at = parts.partition_point(|part| (part.number as usize) < number);
    if at < parts.len() && parts[at].number as usize == number {
        Some(parts[at].place as usize)
    } else {
        None
    }
}
