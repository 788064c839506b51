//! Whether an object agrees with those above and below it along a way.
ghost use Rattle.std.specs.Prelude.{◌≡◌, ◌<◌, ◌||◌, ◌⊎◌, Some, IsTrue, is_none};
ghost use Rattle.std.specs.Ordering.{int_eq};
ghost use Rattle.std.specs.List.{list_all};
ghost use Rattle.spec_world.specs.World.{object_at};
ghost use Rattle.spec_world.specs.WellFormed.{lists, is_nowhere, on_object};
ghost use Rattle.world_checks.specs.Guessed.{AllPlaced};
ghost use Rattle.world_checks.specs.Marks.{mark_of};
ghost use Rattle.world_checks.specs.Ways.{up_of, down_of, AgreesAlong};

use crate::object_checks::guess::Guess;
use crate::object_checks::way::{Way, down, up};
use crate::table_checks::marks::Marks;
use crate::table_checks::once::{are_places, is_placed};
use view::object::Object;
use world::draft::Draft;

const NOWHERE: i32 = -1;

/// Whether an object agrees with those above and below it, and has a higher rank than the one above.
pub fn agrees_along(draft: &Draft, guess: &Guess, way: Way, number: i32, object: &Object) -> bool
    ensures tells { IsTrue result → AgreesAlong way guess.now.ranks draft.now number object.now }
    ensures finds { AllPlaced way draft.now guess.now.places → object_at draft.now number ≡ Some object.now → AgreesAlong way guess.now.ranks draft.now number object.now → IsTrue result }
{
    let below = down(way, object);
    if !falls(draft, &guess.ranks, way, number, object) {
        return false;
    }
    if !are_places(&guess.places, below) {
        return false;
    }
    if !are_below(draft, way, below, number) {
        return false;
    }
    is_listed(draft, &guess.places, way, number, object)
}

fn falls(draft: &Draft, ranks: &Marks, way: Way, number: i32, object: &Object) -> bool
    ensures tells { IsTrue result → IsTrue (is_none (object_at draft.now (up_of way object.now))) ⊎ (mark_of ranks.now (up_of way object.now) < mark_of ranks.now number) }
    ensures finds { IsTrue (is_none (object_at draft.now (up_of way object.now))) ⊎ (mark_of ranks.now (up_of way object.now) < mark_of ranks.now number) → IsTrue result }
{
    let above = up(way, object);
    match draft.object(above) {
        Some(_) => ranks.get(above) < ranks.get(number),
        None => true,
    }
}

fn are_below(draft: &Draft, way: Way, list: &[i32], above: i32) -> bool
    ensures { result ≡ list_all (λ c. on_object draft.now c (λ y. int_eq (up_of way y) above)) list.now }
{
    for number in list {
        if !is_below(draft, way, *number, above) {
            return false;
        }
    }
    true
}

fn is_below(draft: &Draft, way: Way, number: i32, above: i32) -> bool
    ensures { result ≡ on_object draft.now number (λ y. int_eq (up_of way y) above) }
{
    match draft.object(number) {
        Some(object) => up(way, object) == above,
        None => false,
    }
}

fn is_listed(draft: &Draft, places: &Marks, way: Way, number: i32, object: &Object) -> bool
    ensures tells { IsTrue result → IsTrue (is_nowhere (up_of way object.now) || on_object draft.now (up_of way object.now) (λ y. lists (down_of way y) number)) }
    ensures finds { AllPlaced way draft.now places.now → IsTrue (is_nowhere (up_of way object.now) || on_object draft.now (up_of way object.now) (λ y. lists (down_of way y) number)) → IsTrue result }
{
    let above = up(way, object);
    if above == NOWHERE {
        return true;
    }
    is_listed_by(draft, places, way, number, above)
}

fn is_listed_by(draft: &Draft, places: &Marks, way: Way, number: i32, above: i32) -> bool
    ensures tells { IsTrue result → IsTrue (on_object draft.now above (λ y. lists (down_of way y) number)) }
    ensures finds { AllPlaced way draft.now places.now → IsTrue (on_object draft.now above (λ y. lists (down_of way y) number)) → IsTrue result }
{
    match draft.object(above) {
        Some(object) => is_placed(places, down(way, object), number),
        None => false,
    }
}
