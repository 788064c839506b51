//! Whether the objects of a draft are those of a well-formed world.
ghost use Rattle.std.specs.Prelude.{◌≡◌, ◌&&◌, pos, neg_ℤ, int_le, nat_le, IfOk, IsTrue};
ghost use Rattle.spec_world.specs.Agreeing.{ObjectsAgree};

use crate::object_checks::agree::all_agree;
use crate::object_checks::guess::guess_along;
use crate::object_checks::way::Way;
use crate::table_checks::rise::rise;
use std::alloc::{AllocError, Global};
use world::draft::Draft;

const LAST_OBJECT: i32 = 999_999;

const LAST_NEXT: u64 = 33554432;

/// Whether the objects of a draft are those of a well-formed world: their numbers, families, whereabouts and properties.
#[tactic(auto, using(crate::proofs::Agreed::objects_rise))]
pub fn objects_are_sound(alloc: Global, draft: &Draft) -> Result<bool, AllocError>
    ensures tells { IfOk result (λ b. IsTrue b → ObjectsAgree draft.now) }
    ensures finds { IfOk result (λ b. ObjectsAgree draft.now → IsTrue b) }
{
    let listed = draft.object_numbers()?;
    let numbers = listed.as_slice();
    if !rise(numbers) {
        return Ok(false);
    }
    if !greatest_is_sound(draft) {
        return Ok(false);
    }
    let family = guess_along(alloc, draft, numbers, Way::Parent)?;
    let whereabouts = guess_along(alloc, draft, numbers, Way::Location)?;
    all_agree(alloc, draft, &family, &whereabouts, numbers)
}

fn greatest_is_sound(draft: &Draft) -> bool
    ensures { result ≡ (int_le (neg_ℤ (pos 1)) draft.now.greatest && int_le draft.now.greatest (pos 999999)) }
{
    let greatest = draft.greatest();
    -1 <= greatest && greatest <= LAST_OBJECT
}

/// Whether the number of a draft's next step is one that a well-formed world may have.
pub fn next_is_sound(draft: &Draft) -> bool
    ensures { result ≡ (nat_le 1 draft.now.next && nat_le draft.now.next 33554432) }
{
    let next = draft.next();
    1 <= next && next <= LAST_NEXT
}
