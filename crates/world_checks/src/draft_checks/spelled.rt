//! Texts of all programs of a world.
ghost use Rattle.std.specs.Prelude.{◌≡◌, [], IfOk, IsTrue};
ghost use Rattle.std.specs.List.{All, list_all};
ghost use Rattle.spec_program.specs.Trees.{program_fits};
ghost use Rattle.spec_world.specs.WellFormed.{OfEachObject, OfEachTask};
ghost use Rattle.spec_holding.specs.Whole.{TextsSpell, frames_spelled};
ghost use Rattle.world_checks.specs.Spelled.{ObjectSpelledAt, TaskSpelledAt};

use crate::task_checks::spelled::task_is_spelled;
use std::alloc::{AllocError, Global};
use view::verb::Verb;
use world::draft::Draft;

/// Whether texts spell the programs of all verbs of objects, and of all verbs of tasks that wait.
#[tactic(auto, using(crate::proofs::Spelling::texts_spell))]
pub fn is_spelled(alloc: Global, draft: &Draft) -> Result<bool, AllocError>
    ensures tells { IfOk result (λ spelled. IsTrue spelled → TextsSpell draft.now) }
    ensures finds { IfOk result (λ spelled. TextsSpell draft.now → IsTrue spelled) }
{
    let numbers = draft.object_numbers()?;
    know_objects(draft, numbers.as_slice());
    let ids = draft.waiting()?;
    let spelled = tasks_are_spelled(alloc, draft, ids.as_slice())?;
    Ok(spelled)
}

// Each program of an object is kept as a text that spells it.
fn know_objects(draft: &Draft, numbers: &[i32])
    ensures { All (ObjectSpelledAt draft.now) numbers.now }
{
    for number in numbers {
        know_object(draft, *number);
    }
}

fn know_object(draft: &Draft, number: i32)
    ensures { ObjectSpelledAt draft.now number }
{
    if let Some(object) = draft.object(number) {
        know_verbs(object.verbs().as_slice());
    }
}

fn know_verbs(verbs: &[Verb])
    ensures { IsTrue (list_all (λ v. program_fits [] v.program) verbs.now) }
{
    for verb in verbs {
        verb.program.know();
    }
}

fn tasks_are_spelled(alloc: Global, draft: &Draft, ids: &[i32]) -> Result<bool, AllocError>
    ensures tells { IfOk result (λ spelled. IsTrue spelled → All (TaskSpelledAt draft.now) ids.now) }
    ensures finds { IfOk result (λ spelled. OfEachTask draft.now frames_spelled → IsTrue spelled) }
{
    for id in ids {
        if !task_is_spelled_at(alloc, draft, *id)? {
            return Ok(false);
        }
    }
    Ok(true)
}

fn task_is_spelled_at(alloc: Global, draft: &Draft, id: i32) -> Result<bool, AllocError>
    ensures tells { IfOk result (λ spelled. IsTrue spelled → TaskSpelledAt draft.now id) }
    ensures finds { IfOk result (λ spelled. TaskSpelledAt draft.now id → IsTrue spelled) }
{
    match draft.task(id) {
        Some(task) => task_is_spelled(alloc, task),
        None => Ok(true),
    }
}
