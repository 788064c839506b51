//! Forks: the new task goes into the world.
ghost use Rattle.std.specs.Prelude.{◌≡◌, ◌<◌, ◌+◌, ◌^◌, IfOk, OnOk};
ghost use Rattle.moo_code.specs.Layout.{code_of};
ghost use Rattle.moo_code.specs.Names.{names_of};
ghost use Rattle.moo_program.specs.Gathering.{forks_in};
ghost use Rattle.moo_program.specs.Meaning.{some_name_at, body_at};
ghost use Rattle.rules.specs.Lines.{AreAgreeing};
ghost use Rattle.view.specs.Law.{Goes, Lasts};
ghost use Rattle.moo_task.specs.Forking.{forks};
ghost use Rattle.local_code.specs.Scenes.{led_at};

use crate::moo_asking::leading::led_by;
use moo_task::deeds::Deeds;
use moo_task::moo_forks::fork::{Fork, start_fork};
use moo_task::outcome::Outcome;
use moo_task::running::Running;
use std::alloc::{AllocError, Global};
use view::law::View;
use view::readers::write_task;

/// A task is forked, which the fork tells by the slot of its variable, if it has one, and by its number among those of the verb's
/// program.
pub fn fork<V: View>(
    alloc: Global,
    view: &mut V,
    deeds: &mut Deeds,
    task: &mut Running,
    variable: Option<u32>,
    number: u32,
) -> Result<Outcome, AllocError>
    requires home { V.holds view.old (V.home view.old) }
    requires well_formed { AreAgreeing V.holds V.now view.old }
    requires place { task.old.frame.state.place + 1 < 2 ^ 64 }
    ensures lasts { Lasts V.holds V.home V.anchor view.old view.new result }
    ensures led { IfOk result (λ o. Goes V.holds V.now view.old view.new (λ before after.
        forks (some_name_at (names_of task.old.frame.program) variable) (body_at (forks_in (code_of task.old.frame.program)) number) deeds.old before task.old
        ≡ led_at o deeds.new after task.new)) }
    ensures player { IfOk result (λ o. task.new.player ≡ task.old.player) }
    ensures well_formed { OnOk result (AreAgreeing V.holds V.now view.new) }
{
    let forked = start_fork(alloc, task, deeds, variable, number)?;
    match forked {
        Fork::NotStarted(did) => {
            let outcome = led_by(alloc, task, did)?;
            Ok(outcome)
        }
        Fork::Started(id, started) => {
            write_task(view, id, Some(started))?;
            Ok(Outcome::On)
        }
    }
}
