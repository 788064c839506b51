//! What waits of a task that ran.
ghost use Rattle.std.specs.Prelude.{IfOk, IsTrue};
ghost use Rattle.moo_task.specs.Frames.{outer_of, outers_of};
ghost use Rattle.world_checks.specs.Waiting.{OuterFits, OuterFound, AllFit, AllFound, OutersFit, OutersFound};

use crate::piece_checks::fit::frame_fits;
use crate::task_checks::order::begins_with_verb;
use held_values::native::native_fits;
use moo_task::frame::Outer;
use moo_task::outers::Outers;
use std::alloc::{AllocError, Global};

// More verbs do not call each other.
const MOST_VERBS: usize = 50;

/// Whether what waits stands in order, not too many verbs, and holds what each may hold.
#[tactic(auto, using(crate::proofs::Told::order_of, crate::proofs::Told::few_of, crate::proofs::Told::each_of))]
pub fn outers_fit(alloc: Global, outers: &Outers) -> Result<bool, AllocError>
    ensures tells { IfOk result (λ fit. IsTrue fit → OutersFit outers.now) }
    ensures finds { IfOk result (λ fit. OutersFound outers.now → IsTrue fit) }
{
    if outers.verbs() > MOST_VERBS {
        return Ok(false);
    }
    if !begins_with_verb(outers.as_slice()) {
        return Ok(false);
    }
    let fit = all_fit(alloc, outers.as_slice())?;
    Ok(fit)
}

#[tactic(auto, using(crate::proofs::Each::one_more, crate::proofs::Each::all_of_them, crate::proofs::EachOf::one_of_them))]
fn all_fit(alloc: Global, outers: &[Outer]) -> Result<bool, AllocError>
    ensures tells { IfOk result (λ fit. IsTrue fit → AllFit (outers_of outers.now)) }
    ensures finds { IfOk result (λ fit. AllFound (outers_of outers.now) → IsTrue fit) }
{
    for outer in outers {
        if !outer_fits(alloc, outer)? {
            return Ok(false);
        }
    }
    Ok(true)
}

fn outer_fits(alloc: Global, outer: &Outer) -> Result<bool, AllocError>
    ensures tells { IfOk result (λ fits. IsTrue fits → OuterFits (outer_of outer.now)) }
    ensures finds { IfOk result (λ fits. OuterFound (outer_of outer.now) → IsTrue fits) }
{
    match outer {
        Outer::Verb(frame) => frame_fits(alloc, frame),
        Outer::Native(native) => Ok(native_fits(native)),
    }
}
