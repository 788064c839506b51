//! How a step begins, and what it is where no task runs.
ghost use Rattle.std.specs.Prelude.{◌≡◌, ◌∷◌, [], ℕ, Some, IfOk, OnOk, IsTrue};
ghost use Rattle.spec_value.specs.Datum.{is_text};
ghost use Rattle.spec_world.specs.World.{World};
ghost use Rattle.spec_moo.specs.Steps.Programming.{says as says_to};
ghost use Rattle.spec_moo.specs.Steps.Running.{told_on};
ghost use Rattle.moo_task.specs.Deeds.{scene_of};
ghost use Rattle.steps.specs.Opens.{IsOpening};
ghost use Rattle.steps.specs.StepsPerformed.{came_to_of};

use crate::step_tasks::finish::Finish;
use moo_task::deeds::Deeds;
use moo_value::text::Text;
use std::alloc::{AllocError, Global};
use step_deeds::telling::tell_on;
use task_step::step::Step;

/// The ticks of a task that a connection sets going.
pub const FOREGROUND_TICKS: u32 = 30_000;

/// The ticks of a task that was queued.
pub const QUEUED_TICKS: u32 = 15_000;

/// What a step has done before any task of it runs.
#[inline(always)]
pub fn opening(alloc: Global, step: &Step) -> Deeds
    ensures { IsOpening step.now result }
{
    Deeds {
        number: step.number,
        moment: step.moment,
        key: step.key,
        words_used: 0,
        ids_used: 0,
        lines_kept: 0,
        task: None,
        output: Vec::new(alloc),
        queued: Vec::new(alloc),
        closed: Vec::new(alloc),
        checkpoint: false,
    }
}

/// A link is told a line, and nothing runs.
#[inline(never)]
pub fn says(
    alloc: Global,
    deeds: &mut Deeds,
    connection: i32,
    line: &str,
) -> Result<Finish, AllocError>
    requires { IsTrue (is_text line.now) }
    ensures { IfOk result (λ o. (w : World) (t : ℕ) → says_to (scene_of deeds.old w t) connection line.now ≡ came_to_of deeds.new o w) }
{
    tell_line(alloc, deeds, connection, line)?;
    Ok(Finish::nothing())
}

/// A link is told a line.
pub fn tell_line(
    alloc: Global,
    deeds: &mut Deeds,
    connection: i32,
    line: &str,
) -> Result<(), AllocError>
    requires { IsTrue (is_text line.now) }
    ensures { OnOk result ((w : World) (t : ℕ) → scene_of deeds.new w t ≡ told_on (scene_of deeds.old w t) (Some connection) (line.now ∷ [])) }
{
    let mut lines = Vec::new(alloc);
    let line = Text::from_str(alloc, line)?;
    lines.push(line)?;
    tell_on(deeds, connection, lines)
}
