//! Steps over a view of a world.
ghost use Rattle.std.specs.Prelude.{◌≡◌, ◌≤◌, pos, IfOk, OnOk, IsTrue};
ghost use Rattle.spec_world.specs.Step.{Step as StepOf, in_range, event_in_range};
ghost use Rattle.spec_moo.specs.Steps.{play1};
ghost use Rattle.spec_moo.specs.Steps.Events.{event_of as event_of_step};
ghost use Rattle.task_step.specs.StepView.{event_of};
ghost use Rattle.view.specs.Law.{AreSound, Goes, Lasts};
ghost use Rattle.steps.specs.StepsPerformed.{ComesTo, StepsTo};
ghost use Rattle.steps.specs.Ready.{AreReady};
ghost use Rattle.steps.specs.Opens.{IsOpening};

use crate::step_events::connections::{close, open};
use crate::step_events::lines::line;
use crate::step_events::waiting::ready;
use crate::step_tasks::finish::Finish;
use crate::step_tasks::opening::opening;
use crate::step_tasks::outcome::{idle, outcome};
use moo_task::deeds::Deeds;
use std::alloc::{AllocError, Global};
use step_deeds::natives::Natives;
use task_step::outcome::{Ending, Outcome};
use task_step::step::{Event, Step};
use view::law::View;
use view::readers::{raise_next, read_ending};

/// Plays a step over the view. After an error the view is only to be dropped or undone.
pub fn play_step<V: View, N: Natives>(
    alloc: Global,
    view: &mut V,
    natives: &mut N,
    step: &Step,
) -> Result<Outcome, AllocError>
    requires range { IsTrue (in_range step.now) }
    requires home { V.holds view.old (V.home view.old) }
    requires sound { AreSound V.holds V.now view.old }
    ensures lasts { Lasts V.holds V.home V.anchor view.old view.new result }
    ensures played { IfOk result (λ o. Goes V.holds V.now view.old view.new (λ before after. StepsTo (play1 before step.now) after o)) }
    ensures sound { OnOk result (AreSound V.holds V.now view.new) }
{
    raise_next(view, u64::from(step.number) + 1)?;
    let ending = read_ending(view)?;
    if ending {
        return Ok(idle(alloc, Ending::Ended));
    }
    let mut deeds = opening(alloc, step);
    let finish = perform(alloc, view, natives, &mut deeds, &step.event)?;
    outcome(alloc, &deeds, finish)
}

// What happens in a step, unless the server is about to end.
fn perform<V: View, N: Natives>(
    alloc: Global,
    view: &mut V,
    natives: &mut N,
    deeds: &mut Deeds,
    event: &Event,
) -> Result<Finish, AllocError>
    requires range { IsTrue (event_in_range (event_of event.now)) }
    requires home { V.holds view.old (V.home view.old) }
    requires ready { AreReady V.holds V.now view.old deeds.old }
    ensures lasts { Lasts V.holds V.home V.anchor view.old view.new result }
    ensures played { IfOk result (λ o. (s : StepOf) → IsOpening s deeds.old → Goes V.holds V.now view.old view.new
        (λ before after. ComesTo (event_of_step before s (event_of event.now)) after deeds.new o)) }
{
    match event {
        Event::Open(connection) => {
            let number = number_of(*connection);
            open(alloc, view, natives, deeds, number)
        }
        Event::Close(connection) => {
            let number = number_of(*connection);
            close(alloc, view, natives, deeds, number)
        }
        Event::Line(connection, text) => {
            let number = number_of(*connection);
            line(alloc, view, natives, deeds, number, text)
        }
        Event::Ready(id) => ready(alloc, view, natives, deeds, *id),
    }
}

// The number of a connection.
fn number_of(connection: u32) -> i32
    requires { connection ≤ 999999 }
    ensures { result ≡ pos connection }
{
    connection as i32
}
