//! Runs of tasks.
ghost use Rattle.std.specs.Prelude.{◌≡◌, IfOk, OnOk};
ghost use Rattle.rules.specs.Lines.{AreAgreeing};
ghost use Rattle.view.specs.Law.{Goes, Lasts};
ghost use Rattle.moo_task.specs.Outcomes.{running_kept};
ghost use Rattle.local_code.specs.Stopping.{IsUnderWay, StopsAsSegment, stopped_at};

use crate::moo_run::asking::go_asking;
use crate::moo_run::step::step;
use local_code::moo_run::stopped::Stop;
use local_code::moo_run::tracing::verbs_under_way;
use moo_task::deeds::Deeds;
use moo_task::outcome::Outcome;
use moo_task::running::Running;
use std::alloc::{AllocError, Global};
use step_deeds::natives::Natives;
use view::law::View;

/// Runs a task, which begins or goes on behind a call, until it stops. After an error the task is only to be dropped.
pub fn run<V: View, N: Natives>(
    alloc: Global,
    view: &mut V,
    natives: &mut N,
    deeds: &mut Deeds,
    task: &mut Running,
) -> Result<Stop, AllocError>
    requires home { V.holds view.old (V.home view.old) }
    requires well_formed { AreAgreeing V.holds V.now view.old }
    requires under_way { IsUnderWay (running_kept task.old) task.old.outer }
    ensures lasts { Lasts V.holds V.home V.anchor view.old view.new result }
    ensures stopped { IfOk result (λ s. Goes V.holds V.now view.old view.new
        (λ before after. StopsAsSegment deeds.old before task.old (stopped_at s deeds.new after task.new))) }
    ensures well_formed { OnOk result (AreAgreeing V.holds V.now view.new) }
{
    'instructions: loop {
        go_asking(alloc, view, task)?;
        let outcome = step(alloc, view, natives, deeds, task)?;
        match outcome {
            Outcome::On => {}
            Outcome::Ends(end) => return Ok(Stop::Ends(end)),
            Outcome::RanOut => {
                let verbs = verbs_under_way(alloc, task)?;
                return Ok(Stop::OutOfTicks(verbs));
            }
            Outcome::Waits(waiting) => {
                task.outer.forget_rooms();
                return Ok(Stop::Waits(waiting));
            }
            Outcome::Leaves(_) => unreachable!(),
            Outcome::LacksOperand => unreachable!(),
        }
    }
}
