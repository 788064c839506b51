//! Whether an object agrees with its neighbours.
ghost use Rattle.std.specs.Prelude.{◌≡◌, ℤ, Some, IfOk, IsTrue};
ghost use Rattle.std.specs.List.{All};
ghost use Rattle.spec_world.specs.World.{Object as Meant, object_at};
ghost use Rattle.spec_world.specs.WellFormed.{number_fits};
ghost use Rattle.world_checks.specs.Guessed.{AllPlaced};
ghost use Rattle.world_checks.specs.Ways.{ObjectAgrees};
ghost use Rattle.world_checks.specs.declared.object_checks.way.Way.TheVariants.{Parent, Location};

use crate::object_checks::guess::Guess;
use crate::object_checks::kin::agrees_along;
use crate::object_checks::names::{are_filled, slots_follow};
use crate::object_checks::way::Way;
use std::alloc::{AllocError, Global};
use view::object::Object;
use world::draft::Draft;

/// Whether each of these objects agrees with its neighbours.
pub fn all_agree(
    alloc: Global,
    draft: &Draft,
    family: &Guess,
    whereabouts: &Guess,
    numbers: &[i32],
) -> Result<bool, AllocError>
    ensures tells { IfOk result (λ b. IsTrue b → All (λ o. (x : Meant) → object_at draft.now o ≡ Some x → ObjectAgrees family.now.ranks whereabouts.now.ranks draft.now o x) numbers.now) }
    ensures finds { IfOk result (λ b. AllPlaced Parent draft.now family.now.places → AllPlaced Location draft.now whereabouts.now.places
        → ((o : ℤ) (x : Meant) → object_at draft.now o ≡ Some x → ObjectAgrees family.now.ranks whereabouts.now.ranks draft.now o x) → IsTrue b) }
{
    for number in numbers {
        let agrees = agrees_at(alloc, draft, family, whereabouts, *number)?;
        if !agrees {
            return Ok(false);
        }
    }
    Ok(true)
}

fn agrees_at(
    alloc: Global,
    draft: &Draft,
    family: &Guess,
    whereabouts: &Guess,
    number: i32,
) -> Result<bool, AllocError>
    ensures tells { IfOk result (λ b. IsTrue b → (x : Meant) → object_at draft.now number ≡ Some x → ObjectAgrees family.now.ranks whereabouts.now.ranks draft.now number x) }
    ensures finds { IfOk result (λ b. AllPlaced Parent draft.now family.now.places → AllPlaced Location draft.now whereabouts.now.places
        → ((x : Meant) → object_at draft.now number ≡ Some x → ObjectAgrees family.now.ranks whereabouts.now.ranks draft.now number x) → IsTrue b) }
{
    match draft.object(number) {
        Some(object) => agrees(alloc, draft, family, whereabouts, number, object),
        None => Ok(true),
    }
}

#[tactic(auto, using(crate::proofs::Agreed::number_of, crate::proofs::Agreed::parent_of, crate::proofs::Agreed::location_of, crate::proofs::Agreed::filled_of, crate::proofs::Agreed::follow_of))]
fn agrees(
    alloc: Global,
    draft: &Draft,
    family: &Guess,
    whereabouts: &Guess,
    number: i32,
    object: &Object,
) -> Result<bool, AllocError>
    ensures tells { IfOk result (λ b. IsTrue b → ObjectAgrees family.now.ranks whereabouts.now.ranks draft.now number object.now) }
    ensures finds { IfOk result (λ b. AllPlaced Parent draft.now family.now.places → AllPlaced Location draft.now whereabouts.now.places → object_at draft.now number ≡ Some object.now
        → ObjectAgrees family.now.ranks whereabouts.now.ranks draft.now number object.now → IsTrue b) }
{
    let _sorted = object.slots().as_slice();
    if !number_fits(draft, number, object) {
        return Ok(false);
    }
    if !agrees_along(draft, family, Way::Parent, number, object) {
        return Ok(false);
    }
    if !agrees_along(draft, whereabouts, Way::Location, number, object) {
        return Ok(false);
    }
    if !are_filled(object.slots(), object.defines().as_slice()) {
        return Ok(false);
    }
    let follow = slots_follow(alloc, draft, number, object)?;
    Ok(follow)
}

fn number_fits(draft: &Draft, number: i32, object: &Object) -> bool
    ensures { result ≡ number_fits draft.now number object.now }
{
    let _object = object;
    0 <= number && number <= draft.greatest()
}
