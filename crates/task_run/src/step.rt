//! One step over a view of a world.
ghost use Rattle.std.specs.Prelude.{◌≡◌, IfOk, OnOk, IsTrue};
ghost use Rattle.spec_world.specs.Step.{in_range};
ghost use Rattle.spec_moo.specs.Steps.{play1};
ghost use Rattle.view.specs.Law.{Goes, AreSound};
ghost use Rattle.task_run.specs.Performed.{StepsTo};

use crate::rooms::Rooms;
use std::alloc::{AllocError, Global};
use steps::step_events::play::play_step;
use task_step::outcome::Outcome;
use task_step::step::Step;
use view::law::View;

/// Runs a step over the view, in the room of an earlier one. After an error the view is to be undone or dropped.
pub fn run_step<V: View>(
    alloc: Global,
    view: &mut V,
    rooms: &mut Rooms,
    step: &Step,
) -> Result<Outcome, AllocError>
    requires range { IsTrue (in_range step.now) }
    requires home { V.holds view.old (V.home view.old) }
    requires sound { AreSound V.holds V.now view.old }
    ensures anchor { V.anchor view.new ≡ V.anchor view.old }
    ensures home { V.home view.new ≡ V.home view.old }
    ensures stays { OnOk result (V.holds view.new (V.home view.new)) }
    ensures sound { OnOk result (AreSound V.holds V.now view.new) }
    ensures played { IfOk result (λ o. Goes V.holds V.now view.old view.new
        (λ before after. StepsTo (play1 before step.now) after o)) }
{
    play_step(alloc, view, &mut rooms.natives, step)
}
