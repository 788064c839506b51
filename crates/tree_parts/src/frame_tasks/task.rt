//! Tasks that wait, of what is under way.
ghost use Rattle.std.specs.Prelude.{◌≡◌, [], ◌∷◌, IfOk, IfSome, IsTrue, is_some, OnOk};
ghost use Rattle.tree_parts.specs.Arriving.{StandsThere};
ghost use Rattle.tree_parts.specs.Telling.{WaitsAtCalls};
ghost use Rattle.moo_code.specs.Machine.{verb};
ghost use Rattle.spec_world.specs.World.{forked as forked_until};
ghost use Rattle.moo_task.specs.Effects.{waiting_of};
ghost use Rattle.moo_task.specs.Frames.{kept_of, outer_of, outers_of};
ghost use Rattle.moo_task.specs.Keeping.{AllAtCall, BeginsAlone, IsKept, task_of};
ghost use Rattle.tree_parts.specs.Standing.{AllStand, OuterStands};

use crate::frame_tasks::standing::stands_at_call;
use moo_task::effect::Waiting;
use moo_task::frame::{Frame, Outer};
use moo_task::outers::Outers;
use moo_task::task::Task;
use std::alloc::{AllocError, Global};

/// The task that waits so, of what is under way with the innermost last; if it may be: what was forked is one verb at its
/// beginning, without operands, and otherwise the innermost is a verb, and each verb stands at a call of its program with as many
/// operands as are held there. It is made exactly then.
#[tactic(auto, using(moo_task::proofs::Waiting::one_more))]
pub fn task_from(
    alloc: Global,
    player: i32,
    waiting: Waiting,
    verbs: Vec<Outer>,
) -> Result<Option<Task>, AllocError>
    ensures tells { IfOk result (λ made. IfSome made (λ t. t ≡ task_of player (waiting_of waiting) (outers_of verbs.items))) }
    ensures finds { IfOk result (λ made. IsKept (waiting_of waiting) (outers_of verbs.items) → IsTrue (is_some made)) }
{
    let mut outer = verbs;
    match outer.pop() {
        Some(Outer::Verb(frame)) => with_innermost(alloc, player, waiting, frame, outer),
        _ => Ok(None),
    }
}

// Of its innermost verb, and what waits for that.
fn with_innermost(
    alloc: Global,
    player: i32,
    waiting: Waiting,
    frame: Frame,
    outer: Vec<Outer>,
) -> Result<Option<Task>, AllocError>
    ensures tells { IfOk result (λ made. IfSome made (λ t. t ≡ task_of player (waiting_of waiting) (verb (kept_of frame) ∷ outers_of outer.items))) }
    ensures finds { IfOk result (λ made. IsKept (waiting_of waiting) (verb (kept_of frame) ∷ outers_of outer.items) → IsTrue (is_some made)) }
{
    match waiting {
        Waiting::Forked(due) => forked(alloc, player, due, frame, outer),
        Waiting::Timed(due, value) => {
            stopped(alloc, player, Waiting::Timed(due, value), frame, outer)
        }
        Waiting::Idle => stopped(alloc, player, Waiting::Idle, frame, outer),
        Waiting::ReadingOn(connection) => {
            stopped(alloc, player, Waiting::ReadingOn(connection), frame, outer)
        }
    }
}

fn forked(
    alloc: Global,
    player: i32,
    due: u32,
    frame: Frame,
    outer: Vec<Outer>,
) -> Result<Option<Task>, AllocError>
    ensures tells { IfOk result (λ made. IfSome made (λ t. t ≡ task_of player (forked_until due) (verb (kept_of frame) ∷ outers_of outer.items))) }
    ensures finds { IfOk result (λ made. BeginsAlone (verb (kept_of frame) ∷ outers_of outer.items) → IsTrue (is_some made)) }
{
    if !outer.is_empty() || !is_at_beginning(&frame) {
        return Ok(None);
    }
    let task = Task::forked(alloc, player, due, frame)?;
    Ok(Some(task))
}

fn is_at_beginning(frame: &Frame) -> bool
    ensures tells { IsTrue result → (frame.now.state.place ≡ 0) × (frame.now.state.operands ≡ []) }
    ensures finds { frame.now.state.place ≡ 0 → frame.now.state.operands ≡ [] → IsTrue result }
{
    frame.state.place == 0 && frame.state.operands.len() == 0
}

#[tactic(auto, using(crate::proofs::Waiting::has_stopped))]
fn stopped(
    alloc: Global,
    player: i32,
    waiting: Waiting,
    frame: Frame,
    outer: Vec<Outer>,
) -> Result<Option<Task>, AllocError>
    requires { WaitsAtCalls (waiting_of waiting) }
    ensures tells { IfOk result (λ made. IfSome made (λ t. t ≡ task_of player (waiting_of waiting) (verb (kept_of frame) ∷ outers_of outer.items))) }
    ensures finds { IfOk result (λ made. AllAtCall (verb (kept_of frame) ∷ outers_of outer.items) → IsTrue (is_some made)) }
{
    let verb_stands = stands_at_call(alloc, &frame)?;
    let others_stand = all_stand(alloc, outer.as_slice())?;
    if !verb_stands {
        return Ok(None);
    }
    if !others_stand {
        return Ok(None);
    }
    let outer = outers_from(alloc, outer)?;
    let task = Task::stopped(alloc, player, waiting, frame, outer)?;
    Ok(Some(task))
}

// Whether each verb among these stands at a call.
#[tactic(auto, using(crate::proofs::Waiting::stand_more))]
fn all_stand(alloc: Global, outers: &[Outer]) -> Result<bool, AllocError>
    ensures tells { IfOk result (λ so. IsTrue so → AllStand (outers_of outers.now)) }
    ensures finds { IfOk result (λ so. AllStand (outers_of outers.now) → IsTrue so) }
{
    for outer in outers {
        let stands = stands(alloc, outer)?;
        if !stands {
            return Ok(false);
        }
    }
    Ok(true)
}

fn stands(alloc: Global, outer: &Outer) -> Result<bool, AllocError>
    ensures tells { IfOk result (λ so. IsTrue so → OuterStands (outer_of outer.now)) }
    ensures finds { IfOk result (λ so. OuterStands (outer_of outer.now) → IsTrue so) }
{
    match outer {
        Outer::Verb(frame) => stands_at_call(alloc, frame),
        Outer::Native(_) => Ok(true),
    }
}

#[tactic(auto, using(moo_task::proofs::Waiting::one_more))]
fn outers_from(alloc: Global, stack: Vec<Outer>) -> Result<Outers, AllocError>
    ensures { IfOk result (λ outers. outers ≡ outers_of stack.items) }
{
    let mut outers = Outers::new(alloc);
    for outer in stack {
        push(&mut outers, outer)?;
    }
    Ok(outers)
}

fn push(outers: &mut Outers, outer: Outer) -> Result<(), AllocError>
    ensures { OnOk result (outers.new ≡ outer_of outer ∷ outers.old) }
{
    match outer {
        Outer::Verb(frame) => outers.push_verb(frame),
        Outer::Native(native) => outers.push_native(native),
    }
}
