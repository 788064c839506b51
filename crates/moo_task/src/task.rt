//! Tasks that wait.
ghost use Rattle.std.specs.Prelude.{◌≡◌, ◌↔◌, ◌∷◌, [], List, Some, IfOk, IsTrue};
ghost use Rattle.spec_world.specs.World.{Entry, timed};
ghost use Rattle.spec_world.specs.WellFormed.{FramesStand};
ghost use Rattle.spec_moo.specs.Natives.Tasks.{innermost, is_suspended};
ghost use Rattle.spec_moo.specs.Steps.Running.{waiting_task, gone_on};
ghost use Rattle.moo_code.specs.Machine.{verb};
ghost use Rattle.moo_code.specs.Stands.{AllWait};
ghost use Rattle.moo_task.specs.Effects.{waiting_of};
ghost use Rattle.moo_task.specs.Frames.{kept_of};
ghost use Rattle.moo_task.specs.Outcomes.{running_kept, ticks_of};
ghost use Rattle.moo_task.specs.Keeping.{HasStopped, IsKept, forked_task, task_of};
ghost use Rattle.moo_task.specs.UnderWay.{GoesOn, IsUnderWay};
ghost use Rattle.moo_task.specs.Waits.{due_at, read_on};

use crate::copies::{copy_outers, copy_waiting};
use crate::effect::Waiting;
use crate::frame::{Frame, Outer};
use crate::moo_machine::call::Call;
use crate::outers::Outers;
use crate::running::Running;
use crate::same::{same_outers, same_waiting};
use moo_value::value::Value;
use std::alloc::{AllocError, Global};
use std::marker::Model;
use std::sync::Arc;

/// A task that waits: for whom, why, and what is under way, which its clones share. A clone is a count.
///
/// What was forked stands at the beginning of its program; any other task at a call, and each verb that waits for it too.
#[derive(Drop)]
pub struct Task {
    player: i32,
    waiting: Waiting,
    // the innermost verb, with what waits for it
    verbs: Arc<Outers>,
}

impl Model for Task {
    ghost use Rattle.std.specs.Arc.{arc_value};
    ghost use Rattle.spec_world.specs.World.{Task as Meant};
    ghost use Rattle.spec_world.specs.WorldCode.{task_code};

    ghost Value = { Meant };

    ghost coded = { task_code };

    ghost use Rattle.moo_task.specs.Effects.{waiting_of};
    ghost use Rattle.moo_task.specs.Keeping.{task_of, IsKept};

    ghost view = { λ a. task_of a.player (waiting_of a.waiting) (arc_value a.verbs) };

    ghost invariant = { λ a. IsKept (waiting_of a.waiting) (arc_value a.verbs) };
}

impl Task {
    /// A task whose innermost verb waits at a call, and other verbs and built-in functions for that: of the entries for
    /// which they stand.
    pub fn stopped(
        alloc: Global,
        player: i32,
        waiting: Waiting,
        frame: Frame,
        outer: Outers,
    ) -> Result<Task, AllocError>
        requires { HasStopped (waiting_of waiting) (verb (kept_of frame) ∷ outer) }
        ensures { IfOk result (λ t. (es : List Entry) → AllWait es (verb (kept_of frame) ∷ outer) → FramesStand es
            → t ≡ waiting_task player (waiting_of waiting) es) }
    {
        let mut verbs = outer;
        verbs.push_verb(frame)?;
        Ok(Task {
            player,
            waiting,
            verbs: Arc::new(alloc, verbs)?,
        })
    }

    /// A task that begins with a verb at a moment, in seconds.
    pub fn forked(alloc: Global, player: i32, due: u32, frame: Frame) -> Result<Task, AllocError>
        requires place { frame.state.place ≡ 0 }
        requires operands { frame.state.operands ≡ [] }
        ensures { IfOk result (λ t. t ≡ forked_task player due (kept_of frame)) }
    {
        let mut verbs = Outers::new(alloc);
        verbs.push_verb(frame)?;
        Ok(Task {
            player,
            waiting: Waiting::Forked(due),
            verbs: Arc::new(alloc, verbs)?,
        })
    }

    /// For whom it runs.
    pub fn player(&self) -> i32
        ensures { result ≡ self.now.player }
    {
        self.player
    }

    /// Why it waits.
    pub fn waiting(&self) -> &Waiting
        ensures { waiting_of result.now ≡ self.now.waiting }
    {
        &self.waiting
    }

    /// What is under way, with the innermost last.
    pub fn verbs(&self) -> &Outers
        ensures kept { IsKept self.now.waiting result.now }
        ensures task { self.now ≡ task_of self.now.player self.now.waiting result.now }
    {
        &self.verbs
    }

    /// The connection that it reads on, if it waits for a line.
    pub fn reads_on(&self) -> Option<i32>
        ensures { result ≡ read_on self.now.waiting }
    {
        match &self.waiting {
            Waiting::ReadingOn(connection) => Some(*connection),
            _ => None,
        }
    }

    /// The moment at which it is due, in seconds, if it waits for one.
    pub fn due(&self) -> Option<u32>
        ensures { result ≡ due_at self.now.waiting }
    {
        match &self.waiting {
            Waiting::Forked(due) => Some(*due),
            Waiting::Timed(due, _) => Some(*due),
            _ => None,
        }
    }

    /// The call of its innermost verb.
    pub fn call(&self) -> &Call
        ensures { innermost self.now.entries ≡ Some result.now }
    {
        match self.verbs.as_slice().last() {
            Some(Outer::Verb(frame)) => &frame.call,
            _ => unreachable!(),
        }
    }

    /// Whether two tasks are the same.
    pub fn same(&self, other: &Task) -> bool
        ensures { IsTrue result ↔ self.now ≡ other.now }
    {
        self.player == other.player
            && same_waiting(&self.waiting, &other.waiting)
            && same_outers(&self.verbs, &other.verbs)
    }

    /// The same task, which has a value at a moment, in seconds.
    pub fn resumed(&self, moment: u32, value: Value) -> Result<Task, AllocError>
        requires { IsTrue (is_suspended self.now.waiting) }
        ensures { IfOk result (λ t. t ≡ record self.now { waiting = timed moment value }) }
    {
        Ok(Task {
            player: self.player,
            waiting: Waiting::Timed(moment, value),
            verbs: self.verbs.clone()?,
        })
    }

    /// It goes on with so many ticks: what was forked begins, a timed task has its own value, and any other this one. The task
    /// that waits stays as it is.
    pub fn go_on(&self, alloc: Global, value: Value, ticks: u32) -> Result<Running, AllocError>
        ensures pending { IfOk result (λ r. GoesOn (gone_on self.now self.now.waiting value) r.player (running_kept r) r.outer) }
        ensures under_way { IfOk result (λ r. IsUnderWay (running_kept r) r.outer) }
        ensures ticks { IfOk result (λ r. ticks_of r ≡ ticks) }
    {
        let (frame, outer) = innermost_copied(alloc, &self.waiting, &self.verbs)?;
        match &self.waiting {
            Waiting::Forked(_) => Ok(begun(self.player, frame, outer, ticks)),
            Waiting::Timed(_, own) => {
                let value = own.clone()?;
                Running::go_on(self.player, frame, outer, value, ticks)
            }
            Waiting::Idle => Running::go_on(self.player, frame, outer, value, ticks),
            Waiting::ReadingOn(_) => Running::go_on(self.player, frame, outer, value, ticks),
        }
    }
}

// A copy of the innermost verb, and of what waits for it.
#[tactic(auto, using(crate::proofs::Kept::some_verb, crate::proofs::Kept::verb_first))]
fn innermost_copied(
    alloc: Global,
    waiting: &Waiting,
    verbs: &Outers,
) -> Result<(Frame, Outers), AllocError>
    requires { IsKept (waiting_of waiting.now) verbs.now }
    ensures { IfOk result (λ copies. verbs.now ≡ verb (kept_of copies.0) ∷ copies.1) }
{
    let mut outer = copy_outers(alloc, verbs)?;
    match outer.pop() {
        Some(Outer::Verb(frame)) => Ok((frame, outer)),
        _ => unreachable!(),
    }
}

// A task that begins with a verb.
fn begun(player: i32, frame: Frame, outer: Outers, ticks: u32) -> Running
    ensures kept { running_kept result ≡ kept_of frame }
    ensures player { result.player ≡ player }
    ensures outer { result.outer ≡ outer }
    ensures ticks { ticks_of result ≡ ticks }
{
    let mut frame = frame;
    frame.state.ticks = ticks;
    Running {
        player,
        frame,
        outer,
    }
}

impl Clone for Task {
    ghost is_clone = { λ task copy. copy ≡ task };

    fn clone(&self) -> Result<Task, AllocError> {
        Ok(Task {
            player: self.player,
            waiting: copy_waiting(&self.waiting)?,
            verbs: self.verbs.clone()?,
        })
    }
}
