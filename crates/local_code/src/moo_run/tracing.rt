//! The verbs under way, as tracebacks list them.
ghost use Rattle.std.specs.Prelude.{◌≡◌, ◌++◌, [], ◌∷◌, IfOk, OnOk};
ghost use Rattle.spec_moo.specs.Pending.{outer_trace, trace};
ghost use Rattle.moo_code.specs.Machine.{entries};
ghost use Rattle.moo_task.specs.Frames.{outer_of, outers_of};
ghost use Rattle.moo_task.specs.Outcomes.{pending_of};

use moo_task::frame::Outer;
use moo_task::moo_machine::leaving::Traced;
use moo_task::moo_machine::raising::traced;
use moo_task::running::Running;
use std::alloc::{AllocError, Global};

/// The verbs of a task, the innermost first.
pub fn verbs_under_way(alloc: Global, task: &Running) -> Result<Vec<Traced>, AllocError>
    ensures { IfOk result (λ ts. ts.items ≡ trace (pending_of task.now)) }
{
    let mut verbs = Vec::new(alloc);
    let innermost = traced(task.player, &task.frame.call)?;
    verbs.push(innermost)?;
    add_traces(task.player, task.outer.as_slice(), verbs)
}

// The verbs that wait, behind others.
#[tactic(auto, using(crate::proofs::Traces::all_waiting, crate::proofs::Traces::none_waiting, crate::proofs::Traces::one_traced))]
fn add_traces(player: i32, stack: &[Outer], inner: Vec<Traced>) -> Result<Vec<Traced>, AllocError>
    ensures { IfOk result (λ ts. ts.items ≡ inner.items ++ outer_trace player (entries (outers_of stack.now))) }
{
    let mut verbs = inner;
    let mut left = stack.len();
    'each: while left > 0 {
        left -= 1;
        add_trace(player, &stack[left], &mut verbs)?;
    }
    Ok(verbs)
}

// A verb that waits, behind others.
fn add_trace(player: i32, outer: &Outer, verbs: &mut Vec<Traced>) -> Result<(), AllocError>
    ensures { OnOk result (verbs.new.items ≡ verbs.old.items ++ outer_trace player (entries (outer_of outer.now ∷ []))) }
{
    match outer {
        Outer::Verb(frame) => {
            let verb = traced(player, &frame.call)?;
            verbs.push(verb)?;
            Ok(())
        }
        Outer::Native(_) => Ok(()),
    }
}
