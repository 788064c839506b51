//! Worlds as they have to be.
ghost use Rattle.std.specs.Prelude.{IfOk, IsTrue};
ghost use Rattle.view.specs.Sound.{IsSound};

use crate::draft_checks::spelled::is_spelled;
use crate::draft_checks::tasks::tasks_are_sound;
use crate::object_checks::links::links_are_sound;
use crate::object_checks::whole::{next_is_sound, objects_are_sound};
use std::alloc::{AllocError, Global};
use world::draft::Draft;

/// Whether a draft may be a world: it is well formed, and texts spell its programs.
#[tactic(auto, using(crate::proofs::Whole::all_sound, crate::proofs::Whole::next_of, crate::proofs::Whole::objects_of, crate::proofs::Whole::links_of, crate::proofs::Whole::tasks_of))]
pub fn is_sound(alloc: Global, draft: &Draft) -> Result<bool, AllocError>
    ensures tells { IfOk result (λ sound. IsTrue sound → IsSound draft.now) }
    ensures finds { IfOk result (λ sound. IsSound draft.now → IsTrue sound) }
{
    if !next_is_sound(draft) {
        return Ok(false);
    }
    let objects = objects_are_sound(alloc, draft)?;
    if !objects {
        return Ok(false);
    }
    let links = links_are_sound(alloc, draft)?;
    if !links {
        return Ok(false);
    }
    let tasks = tasks_are_sound(alloc, draft)?;
    if !tasks {
        return Ok(false);
    }
    let spelled = is_spelled(alloc, draft)?;
    Ok(spelled)
}
