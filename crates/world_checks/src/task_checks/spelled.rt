//! Texts of the programs of what waits.
ghost use Rattle.std.specs.Prelude.{IfOk, IsTrue};
ghost use Rattle.std.specs.List.{list_all};
ghost use Rattle.spec_holding.specs.Whole.{entry_spelled};
ghost use Rattle.moo_task.specs.Frames.{outer_of, outers_of};
ghost use Rattle.world_checks.specs.Waiting.{OuterSpelled, AllSpelled};

use crate::tree_checks::tree::tree_is_spelled;
use moo_task::frame::Outer;
use moo_task::task::Task;
use std::alloc::{AllocError, Global};

/// Whether texts spell the programs of all verbs of a task.
#[tactic(auto, using(crate::proofs::TaskTold::spelled_told))]
pub fn task_is_spelled(alloc: Global, task: &Task) -> Result<bool, AllocError>
    ensures tells { IfOk result (λ spelled. IsTrue spelled → IsTrue (list_all entry_spelled task.now.entries)) }
    ensures finds { IfOk result (λ spelled. IsTrue (list_all entry_spelled task.now.entries) → IsTrue spelled) }
{
    let verbs = task.verbs();
    let spelled = all_spelled(alloc, verbs.as_slice())?;
    Ok(spelled)
}

#[tactic(auto, using(crate::proofs::Each::one_more, crate::proofs::Each::all_of_them))]
fn all_spelled(alloc: Global, outers: &[Outer]) -> Result<bool, AllocError>
    ensures tells { IfOk result (λ spelled. IsTrue spelled → AllSpelled (outers_of outers.now)) }
    ensures finds { IfOk result (λ spelled. AllSpelled (outers_of outers.now) → IsTrue spelled) }
{
    for outer in outers {
        if !outer_is_spelled(alloc, outer)? {
            return Ok(false);
        }
    }
    Ok(true)
}

fn outer_is_spelled(alloc: Global, outer: &Outer) -> Result<bool, AllocError>
    ensures tells { IfOk result (λ spelled. IsTrue spelled → OuterSpelled (outer_of outer.now)) }
    ensures finds { IfOk result (λ spelled. OuterSpelled (outer_of outer.now) → IsTrue spelled) }
{
    match outer {
        Outer::Verb(frame) => tree_is_spelled(alloc, frame.program.tree()),
        Outer::Native(_) => Ok(true),
    }
}
