//! Connections that open and end.
ghost use Rattle.std.specs.Prelude.{◌≡◌, [], None, IfOk, IsTrue, codes};
ghost use Rattle.spec_value.specs.Datum.{no_data, item, object as object_value};
ghost use Rattle.spec_value.specs.Table.{at};
ghost use Rattle.spec_world.specs.World.{World};
ghost use Rattle.spec_world.specs.WellFormed.{is_connection};
ghost use Rattle.spec_world.specs.VerbsSought.{find_verb};
ghost use Rattle.spec_world.specs.Step.{Step as StepOf};
ghost use Rattle.spec_moo.specs.Steps.Events.{opened_link, closed_link, gone as gone_of, told_gone, foreground_ticks};
ghost use Rattle.spec_moo.specs.Steps.Running.{system, system_task as system_task_of};
ghost use Rattle.moo_task.specs.Deeds.{scene_of};
ghost use Rattle.moo_task.specs.Outcomes.{ticks_of};
ghost use Rattle.view.specs.Law.{Goes, Lasts};
ghost use Rattle.steps.specs.StepsPerformed.{ComesTo};
ghost use Rattle.steps.specs.Ready.{AreReady};
ghost use Rattle.steps.specs.Tasks.{MayRun};
ghost use Rattle.steps.specs.Opens.{IsOpening};

use crate::step_events::login::login;
use crate::step_links::logins::{connection_object, is_nobodys, one_object};
use crate::step_runs::play::play_task;
use crate::step_tasks::finish::Finish;
use crate::step_tasks::opening::FOREGROUND_TICKS;
use crate::step_tasks::system::{on_system, system_task};
use moo_task::deeds::Deeds;
use moo_task::running::Running;
use moo_value::text::Text;
use moo_value::value::Value;
use rules::inherit::verb::FoundVerb;
use std::alloc::{AllocError, Global};
use step_deeds::links::close_link;
use step_deeds::natives::Natives;
use task_step::outcome::Ending;
use view::law::View;
use view::link::Link;
use view::readers::{read_link, write_link};

/// A connection opens. Nothing happens where its number is that of an open one.
#[inline(never)]
pub fn open<V: View, N: Natives>(
    alloc: Global,
    view: &mut V,
    natives: &mut N,
    deeds: &mut Deeds,
    connection: i32,
) -> Result<Finish, AllocError>
    requires home { V.holds view.old (V.home view.old) }
    requires ready { AreReady V.holds V.now view.old deeds.old }
    requires connection { IsTrue (is_connection connection) }
    ensures lasts { Lasts V.holds V.home V.anchor view.old view.new result }
    ensures played { IfOk result (λ o. (s : StepOf) → IsOpening s deeds.old → Goes V.holds V.now view.old view.new
        (λ before after. ComesTo (opened_link s before connection (at before.links connection)) after deeds.new o)) }
{
    let link = read_link(view, connection)?;
    match link {
        Some(_) => Ok(Finish::idle(Ending::Nothing)),
        None => {
            let outcome = open_new(alloc, view, natives, deeds, connection)?;
            Ok(outcome)
        }
    }
}

// A connection opens whose number is not that of an open one.
fn open_new<V: View, N: Natives>(
    alloc: Global,
    view: &mut V,
    natives: &mut N,
    deeds: &mut Deeds,
    connection: i32,
) -> Result<Finish, AllocError>
    requires home { V.holds view.old (V.home view.old) }
    requires ready { AreReady V.holds V.now view.old deeds.old }
    requires connection { IsTrue (is_connection connection) }
    requires new { (w : World) → V.holds view.old w → at (V.now view.old w).links connection ≡ None }
    ensures lasts { Lasts V.holds V.home V.anchor view.old view.new result }
    ensures played { IfOk result (λ o. (s : StepOf) → IsOpening s deeds.old → Goes V.holds V.now view.old view.new
        (λ before after. ComesTo (opened_link s before connection None) after deeds.new o)) }
{
    let object = connection_object(connection);
    write_link(view, connection, Some(Link::new(object)))?;
    let argstr = Text::from_str(alloc, "")?;
    let arguments = Value::list(Vec::new(alloc))?;
    let outcome = login(alloc, view, natives, deeds, connection, argstr, arguments)?;
    Ok(outcome)
}

/// A connection ends. Nothing happens where it is not open.
#[inline(never)]
pub fn close<V: View, N: Natives>(
    alloc: Global,
    view: &mut V,
    natives: &mut N,
    deeds: &mut Deeds,
    connection: i32,
) -> Result<Finish, AllocError>
    requires home { V.holds view.old (V.home view.old) }
    requires ready { AreReady V.holds V.now view.old deeds.old }
    requires connection { IsTrue (is_connection connection) }
    ensures lasts { Lasts V.holds V.home V.anchor view.old view.new result }
    ensures played { IfOk result (λ o. (s : StepOf) → IsOpening s deeds.old → Goes V.holds V.now view.old view.new
        (λ before after. ComesTo (closed_link s before connection (at before.links connection)) after deeds.new o)) }
{
    let link = read_link(view, connection)?;
    match link {
        Some(link) => {
            close_link(view, connection)?;
            let outcome = gone(alloc, view, natives, deeds, connection, link.person)?;
            Ok(outcome)
        }
        None => Ok(Finish::idle(Ending::Nothing)),
    }
}

// `#0:user_disconnected` is called for a player whose link has gone.
fn gone<V: View, N: Natives>(
    alloc: Global,
    view: &mut V,
    natives: &mut N,
    deeds: &mut Deeds,
    connection: i32,
    person: i32,
) -> Result<Finish, AllocError>
    requires home { V.holds view.old (V.home view.old) }
    requires ready { AreReady V.holds V.now view.old deeds.old }
    requires connection { IsTrue (is_connection connection) }
    ensures lasts { Lasts V.holds V.home V.anchor view.old view.new result }
    ensures played { IfOk result (λ o. Goes V.holds V.now view.old view.new
        (λ before after. ComesTo (gone_of (scene_of deeds.old before foreground_ticks) connection person) after deeds.new o)) }
{
    let nobodys = is_nobodys(connection, person);
    if nobodys {
        return Ok(Finish::nothing());
    }
    let outcome = player_gone(alloc, view, natives, deeds, person)?;
    Ok(outcome)
}

// `#0:user_disconnected` is called, if it is there.
fn player_gone<V: View, N: Natives>(
    alloc: Global,
    view: &mut V,
    natives: &mut N,
    deeds: &mut Deeds,
    player: i32,
) -> Result<Finish, AllocError>
    requires home { V.holds view.old (V.home view.old) }
    requires ready { AreReady V.holds V.now view.old deeds.old }
    ensures lasts { Lasts V.holds V.home V.anchor view.old view.new result }
    ensures played { IfOk result (λ o. Goes V.holds V.now view.old view.new (λ before after.
        ComesTo (told_gone (scene_of deeds.old before foreground_ticks) player (find_verb before system (codes "user_disconnected"))) after deeds.new o)) }
{
    let found = on_system(view, "user_disconnected")?;
    match found {
        Some(found) => {
            let task = farewell(alloc, player, &found)?;
            let outcome = play_task(alloc, view, natives, deeds, task)?;
            Ok(outcome)
        }
        None => Ok(Finish::nothing()),
    }
}

// The task that tells of a player whose link has gone.
fn farewell(alloc: Global, player: i32, found: &FoundVerb) -> Result<Running, AllocError>
    ensures runs { IfOk result (λ r. MayRun r (system_task_of player (codes "user_disconnected") [] (item (object_value player) no_data) found.now)) }
    ensures ticks { IfOk result (λ r. ticks_of r ≡ foreground_ticks) }
{
    let argstr = Text::from_str(alloc, "")?;
    let arguments = one_object(alloc, player)?;
    let task = system_task(
        alloc,
        player,
        "user_disconnected",
        argstr,
        arguments,
        found,
        FOREGROUND_TICKS,
    )?;
    Ok(task)
}
