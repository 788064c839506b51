//! What a loop over a list or a range holds in its body.
ghost use Rattle.std.specs.Prelude.{◌∷◌, [], ℕ, IsTrue};
ghost use Rattle.spec_value.specs.Datum.{integer, object};
ghost use Rattle.spec_program.specs.Place.{walks_list, walks_range};
ghost use Rattle.spec_world.specs.WellFormed as spec;

use crate::count::as_count;
use moo_value::value::{Shown, Value};

/// Whether values are a nonempty list, and how many turns of it were begun.
pub fn list_walk_fits(held: &[Value]) -> bool
    ensures tells { IsTrue result → (around : ℕ) → IsTrue (spec.held_fits around walks_list held.now) }
    ensures finds { (around : ℕ) → IsTrue (spec.held_fits around walks_list held.now) → IsTrue result }
{
    held.len() == 2 && turns_fit(&held[0], &held[1])
}

/// Whether a value is a nonempty list, and another how many turns of it were begun.
pub fn turns_fit(list: &Value, turns: &Value) -> bool
    ensures tells { IsTrue result → (around : ℕ) → IsTrue (spec.held_fits around walks_list (list.now ∷ turns.now ∷ [])) }
    ensures finds { (around : ℕ) → IsTrue (spec.held_fits around walks_list (list.now ∷ turns.now ∷ [])) → IsTrue result }
{
    let Shown::List(items) = list.shown() else {
        return false;
    };
    let Shown::Integer(turns) = turns.shown() else {
        return false;
    };
    match as_count(turns) {
        Some(count) => 1 <= count && count <= items.len(),
        None => false,
    }
}

/// Whether values are the number or object of a turn and the last one.
pub fn range_walk_fits(held: &[Value]) -> bool
    ensures tells { IsTrue result → (around : ℕ) → IsTrue (spec.held_fits around walks_range held.now) }
    ensures finds { (around : ℕ) → IsTrue (spec.held_fits around walks_range held.now) → IsTrue result }
{
    held.len() == 2 && ends_fit(&held[0], &held[1])
}

/// Whether a value is the number or object of a turn, and another the last one.
pub fn ends_fit(first: &Value, last: &Value) -> bool
    ensures tells { IsTrue result → (around : ℕ) → IsTrue (spec.held_fits around walks_range (first.now ∷ last.now ∷ [])) }
    ensures finds { (around : ℕ) → IsTrue (spec.held_fits around walks_range (first.now ∷ last.now ∷ [])) → IsTrue result }
{
    match first.shown() {
        Shown::Integer(number) => is_integer_from(number, last),
        Shown::Object(number) => is_object_from(number, last),
        _ => false,
    }
}

fn is_integer_from(number: i32, last: &Value) -> bool
    ensures tells { IsTrue result → (around : ℕ) → IsTrue (spec.held_fits around walks_range (integer number ∷ last.now ∷ [])) }
    ensures finds { (around : ℕ) → IsTrue (spec.held_fits around walks_range (integer number ∷ last.now ∷ [])) → IsTrue result }
{
    match last.shown() {
        Shown::Integer(last) => number <= last,
        _ => false,
    }
}

fn is_object_from(number: i32, last: &Value) -> bool
    ensures tells { IsTrue result → (around : ℕ) → IsTrue (spec.held_fits around walks_range (object number ∷ last.now ∷ [])) }
    ensures finds { (around : ℕ) → IsTrue (spec.held_fits around walks_range (object number ∷ last.now ∷ [])) → IsTrue result }
{
    match last.shown() {
        Shown::Object(last) => number <= last,
        _ => false,
    }
}
