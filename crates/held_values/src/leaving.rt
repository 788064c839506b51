//! How a body was left whose finally part is under way.
ghost use Rattle.std.specs.Prelude.{◌≡◌, ◌⊎◌, ◌∷◌, [], ℕ, IsTrue, pos};
ghost use Rattle.spec_value.specs.Datum.{integer, list, of_list, item, no_data};
ghost use Rattle.spec_program.specs.Place.{why_left};
ghost use Rattle.spec_world.specs.WellFormed as spec;
ghost use Rattle.held_values.specs.Told.{is_trace};

use crate::count::as_count;
use crate::kinds::{is_object, is_text};
use moo_value::value::{Shown, Value};

/// Whether values are how a body was left, with so many loops around.
pub fn leaving_fits(around: usize, held: &[Value]) -> bool
    ensures tells { IsTrue result → IsTrue (spec.held_fits around why_left held.now) }
    ensures finds { IsTrue (spec.held_fits around why_left held.now) → IsTrue result }
{
    held.len() == 1 && tells_leaving(around, &held[0])
}

/// Whether a value is how a body was left, with so many loops around.
pub fn tells_leaving(around: usize, value: &Value) -> bool
    ensures tells { IsTrue result → IsTrue (spec.held_fits around why_left (value.now ∷ [])) }
    ensures finds { IsTrue (spec.held_fits around why_left (value.now ∷ [])) → IsTrue result }
{
    let Shown::List(items) = value.shown() else {
        return false;
    };
    let Some((way, rest)) = items.split_first() else {
        return false;
    };
    let Shown::Integer(way) = way.shown() else {
        return false;
    };
    way_fits(around, way, rest)
}

// The end of the body, a return, an error, or a way out of loops, with what is told of it.
#[tactic(auto, using(crate::proofs::Telling::ended_so, crate::proofs::Telling::left_so, crate::proofs::Telling::left_no_other))]
fn way_fits(around: usize, way: i32, rest: &[Value]) -> bool
    ensures tells { IsTrue result → IsTrue (spec.tells_leaving around (item (integer way) (of_list rest.now))) }
    ensures finds { IsTrue (spec.tells_leaving around (item (integer way) (of_list rest.now))) → IsTrue result }
{
    if way == 0 {
        return rest.is_empty();
    }
    if way == 1 {
        return rest.len() == 1;
    }
    if way == 2 {
        return error_fits(rest);
    }
    if way != 3 && way != 4 {
        return false;
    }
    if rest.len() != 1 {
        return false;
    }
    leaves_loops(around, way, &rest[0])
}

// An error: its code, message and value, and by which verbs it came.
#[tactic(auto, using(crate::proofs::Telling::failed_so, crate::proofs::Telling::failed_message, crate::proofs::Telling::failed_trace))]
fn error_fits(rest: &[Value]) -> bool
    ensures tells { IsTrue result → (around : ℕ) → IsTrue (spec.tells_leaving around (item (integer (pos 2)) (of_list rest.now))) }
    ensures finds { (around : ℕ) → IsTrue (spec.tells_leaving around (item (integer (pos 2)) (of_list rest.now))) → IsTrue result }
{
    if rest.len() != 4 {
        return false;
    }
    if !is_text(&rest[1]) {
        return false;
    }
    trace_fits(&rest[3])
}

fn leaves_loops(around: usize, way: i32, count: &Value) -> bool
    requires { (way ≡ pos 3) ⊎ (way ≡ pos 4) }
    ensures tells { IsTrue result → IsTrue (spec.tells_leaving around (item (integer way) (item count.now no_data))) }
    ensures finds { IsTrue (spec.tells_leaving around (item (integer way) (item count.now no_data))) → IsTrue result }
{
    let Shown::Integer(count) = count.shown() else {
        return false;
    };
    match as_count(count) {
        Some(loops) => loops < around,
        None => false,
    }
}

fn trace_fits(value: &Value) -> bool
    ensures { result ≡ is_trace value.now }
{
    let Shown::List(items) = value.shown() else {
        return false;
    };
    !items.is_empty() && are_traced_items(items)
}

fn are_traced_items(items: &[Value]) -> bool
    ensures { result ≡ spec.are_traced (of_list items.now) }
{
    for item in items {
        if !is_traced(item) {
            return false;
        }
    }
    true
}

fn is_traced(value: &Value) -> bool
    ensures { result ≡ spec.is_traced value.now }
{
    let Shown::List(items) = value.shown() else {
        return false;
    };
    is_verb(items)
}

// {this, verb, programmer, definer, player}
#[tactic(auto, using(crate::proofs::Telling::traced_five, crate::proofs::Telling::traced_first, crate::proofs::Telling::traced_verb, crate::proofs::Telling::traced_programmer, crate::proofs::Telling::traced_definer, crate::proofs::Telling::traced_player))]
fn is_verb(items: &[Value]) -> bool
    ensures { result ≡ spec.is_traced (list (of_list items.now)) }
{
    if items.len() != 5 {
        return false;
    }
    if !is_object(&items[0]) {
        return false;
    }
    if !is_text(&items[1]) {
        return false;
    }
    if !is_object(&items[2]) {
        return false;
    }
    if !is_object(&items[3]) {
        return false;
    }
    is_object(&items[4])
}
