//! Logins.
ghost use Rattle.std.specs.Prelude.{◌≡◌, IfOk, IsTrue, codes};
ghost use Rattle.spec_value.specs.Datum.{Data, list};
ghost use Rattle.spec_world.specs.WellFormed.{is_connection};
ghost use Rattle.spec_world.specs.Links.{connection_object as connection_object_of};
ghost use Rattle.spec_moo.specs.Steps.Running.{run as run_of, system_task as system_task_of};
ghost use Rattle.spec_moo.specs.Steps.Events.{login as login_of, after_login, foreground_ticks};
ghost use Rattle.moo_task.specs.Deeds.{scene_of};
ghost use Rattle.view.specs.Law.{Goes, Lasts};
ghost use Rattle.steps.specs.StepsPerformed.{ComesTo};
ghost use Rattle.steps.specs.Ready.{AreReady};

use crate::step_links::logins::{accept, connection_object};
use crate::step_runs::run::run_task;
use crate::step_tasks::finish::Finish;
use crate::step_tasks::opening::FOREGROUND_TICKS;
use crate::step_tasks::system::{on_system, system_task};
use moo_task::deeds::Deeds;
use moo_value::text::Text;
use moo_value::value::Value;
use rules::inherit::verb::FoundVerb;
use std::alloc::{AllocError, Global};
use step_deeds::natives::Natives;
use view::law::View;

/// A login: `#0:do_login_command` is called for the connection.
#[inline(never)]
pub fn login<V: View, N: Natives>(
    alloc: Global,
    view: &mut V,
    natives: &mut N,
    deeds: &mut Deeds,
    connection: i32,
    argstr: Text,
    arguments: Value,
) -> Result<Finish, AllocError>
    requires home { V.holds view.old (V.home view.old) }
    requires ready { AreReady V.holds V.now view.old deeds.old }
    requires list { (args : Data) × (arguments ≡ list args) }
    requires connection { IsTrue (is_connection connection) }
    ensures lasts { Lasts V.holds V.home V.anchor view.old view.new result }
    ensures played { IfOk result (λ o. (args : Data) → arguments ≡ list args → Goes V.holds V.now view.old view.new
        (λ before after. ComesTo (login_of (scene_of deeds.old before foreground_ticks) connection argstr args) after deeds.new o)) }
{
    let found = on_system(view, "do_login_command")?;
    match found {
        Some(found) => {
            let outcome = log_in(
                alloc, view, natives, deeds, connection, argstr, arguments, &found,
            )?;
            Ok(outcome)
        }
        None => Ok(Finish::nothing()),
    }
}

// The verb that was found is called.
fn log_in<V: View, N: Natives>(
    alloc: Global,
    view: &mut V,
    natives: &mut N,
    deeds: &mut Deeds,
    connection: i32,
    argstr: Text,
    arguments: Value,
    found: &FoundVerb,
) -> Result<Finish, AllocError>
    requires home { V.holds view.old (V.home view.old) }
    requires ready { AreReady V.holds V.now view.old deeds.old }
    requires list { (args : Data) × (arguments ≡ list args) }
    requires connection { IsTrue (is_connection connection) }
    ensures lasts { Lasts V.holds V.home V.anchor view.old view.new result }
    ensures played { IfOk result (λ o. (args : Data) → arguments ≡ list args → Goes V.holds V.now view.old view.new
        (λ before after. ComesTo (after_login connection (run_of (scene_of deeds.old before foreground_ticks)
        (system_task_of (connection_object_of connection) (codes "do_login_command") argstr args found.now))) after deeds.new o)) }
{
    let object = connection_object(connection);
    let task = system_task(
        alloc,
        object,
        "do_login_command",
        argstr,
        arguments,
        found,
        FOREGROUND_TICKS,
    )?;
    let ran = run_task(alloc, view, natives, deeds, task)?;
    accept(alloc, view, deeds, connection, &ran.ending)?;
    Ok(ran)
}
