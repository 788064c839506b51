//! What the value does with which a login ends: a player gets the link.
ghost use Rattle.std.specs.Prelude.{◌≡◌, ℕ, true, Some, IfOk, IsTrue, OnOk, codes};
ghost use Rattle.std.specs.Ordering.{int_eq};
ghost use Rattle.spec_value.specs.Datum.{no_data, item, list, object as object_value};
ghost use Rattle.spec_world.specs.World.{World};
ghost use Rattle.spec_world.specs.WellFormed.{is_connection};
ghost use Rattle.spec_world.specs.Links.{connection_object as connection_object_of};
ghost use Rattle.spec_world.specs.VerbsSought.{find_verb};
ghost use Rattle.spec_moo.specs.Pending.{done};
ghost use Rattle.spec_moo.specs.Scene.{Scene};
ghost use Rattle.spec_moo.specs.Steps.Running.{system};
ghost use Rattle.spec_moo.specs.Steps.Events.{login_value, logged_in, greeted, user_task, may_log_in as may_log_in_of, is_open_for as is_open_for_of, foreground_ticks};
ghost use Rattle.spec_ready.specs.Ready.{relinked};
ghost use Rattle.moo_task.specs.Deeds.{scene_of};
ghost use Rattle.moo_task.specs.declared.deeds.Deeds.{Deeds as TheDeeds};
ghost use Rattle.view.specs.Law.{Goes, Lasts, Tells};
ghost use Rattle.steps.specs.StepsPerformed.{HasValue};
ghost use Rattle.steps.specs.Ready.{AreReady};
ghost use Rattle.steps.specs.Accepting.{Accepts, has_player};

use crate::step_tasks::opening::{QUEUED_TICKS, tell_line};
use crate::step_tasks::system::{on_system, system_task};
use builtins_view::builtins_task::ids::{MOST_IDS, task_id};
use moo_task::deeds::Deeds;
use moo_task::running::Running;
use moo_task::task::Task;
use moo_value::text::Text;
use moo_value::value::{Shown, Value};
use rules::inherit::verb::FoundVerb;
use std::alloc::{AllocError, Global};
use step_deeds::links::close_connection_of;
use step_deeds::queue::enqueue;
use task_step::outcome::Ending;
use view::header::Header;
use view::law::View;
use view::link::Link;
use view::readers::{read_header, read_link, write_link};

/// The object of a connection on which nobody has logged in.
pub fn connection_object(connection: i32) -> i32
    requires { IsTrue (is_connection connection) }
    ensures { result ≡ connection_object_of connection }
{
    -3 - connection
}

/// Whether a link's person is the object of its connection: nobody has logged in on it.
pub fn is_nobodys(connection: i32, person: i32) -> bool
    requires { IsTrue (is_connection connection) }
    ensures { result ≡ int_eq person (connection_object_of connection) }
{
    person == connection_object(connection)
}

/// What the value does with which a login ends.
pub fn accept<V: View>(
    alloc: Global,
    view: &mut V,
    deeds: &mut Deeds,
    connection: i32,
    ending: &Ending,
) -> Result<(), AllocError>
    requires home { V.holds view.old (V.home view.old) }
    requires ready { HasValue ending.now → AreReady V.holds V.now view.old deeds.old }
    requires connection { IsTrue (is_connection connection) }
    ensures lasts { Lasts V.holds V.home V.anchor view.old view.new result }
    ensures accepts { OnOk result (Goes V.holds V.now view.old view.new (λ before after. Accepts connection ending.now deeds.old before deeds.new after)) }
{
    match ending {
        Ending::Value(value) => {
            accept_value(alloc, view, deeds, connection, value)?;
            Ok(())
        }
        _ => Ok(()),
    }
}

// What a value does: that of a player logs in.
fn accept_value<V: View>(
    alloc: Global,
    view: &mut V,
    deeds: &mut Deeds,
    connection: i32,
    value: &Value,
) -> Result<(), AllocError>
    requires home { V.holds view.old (V.home view.old) }
    requires ready { AreReady V.holds V.now view.old deeds.old }
    requires connection { IsTrue (is_connection connection) }
    ensures lasts { Lasts V.holds V.home V.anchor view.old view.new result }
    ensures left { OnOk result (Goes V.holds V.now view.old view.new
        (λ before after. (t : ℕ) → scene_of deeds.new after t ≡ login_value (scene_of deeds.old before t) connection (done value.now))) }
{
    match value.shown() {
        Shown::Object(object) => accept_object(alloc, view, deeds, connection, object),
        _ => Ok(()),
    }
}

// An object logs in, if it may.
fn accept_object<V: View>(
    alloc: Global,
    view: &mut V,
    deeds: &mut Deeds,
    connection: i32,
    object: i32,
) -> Result<(), AllocError>
    requires home { V.holds view.old (V.home view.old) }
    requires ready { AreReady V.holds V.now view.old deeds.old }
    requires connection { IsTrue (is_connection connection) }
    ensures lasts { Lasts V.holds V.home V.anchor view.old view.new result }
    ensures left { OnOk result (Goes V.holds V.now view.old view.new
        (λ before after. (t : ℕ) → scene_of deeds.new after t ≡ login_value (scene_of deeds.old before t) connection (done (object_value object)))) }
{
    let may = may_log_in(view, connection, object)?;
    if !may {
        return Ok(());
    }
    log_player_in(alloc, view, deeds, connection, object)
}

// Whether the link is still there, and nobody's, and the object is a player.
fn may_log_in<V: View>(view: &mut V, connection: i32, object: i32) -> Result<bool, AllocError>
    requires home { V.holds view.old (V.home view.old) }
    requires connection { IsTrue (is_connection connection) }
    ensures lasts { Lasts V.holds V.home V.anchor view.old view.new result }
    ensures left { IfOk result (λ b. Tells V.holds V.now view.old view.new (λ w. (d : TheDeeds) (t : ℕ) → may_log_in_of (scene_of d w t) connection object ≡ b)) }
{
    let header = read_header(view, object)?;
    let player = is_player(&header);
    if !player {
        return Ok(false);
    }
    let link = read_link(view, connection)?;
    let nobodys = connection_object(connection);
    let open = is_open_for(&link, nobodys);
    Ok(open)
}

fn is_player(header: &Option<Header>) -> bool
    ensures { result ≡ has_player header.now }
{
    match header {
        Some(header) => header.is_player,
        None => false,
    }
}

fn is_open_for(link: &Option<Link>, object: i32) -> bool
    ensures { result ≡ is_open_for_of link.now object }
{
    match link {
        Some(link) => link.person == object,
        None => false,
    }
}

// The player has the link, and is greeted.
fn log_player_in<V: View>(
    alloc: Global,
    view: &mut V,
    deeds: &mut Deeds,
    connection: i32,
    player: i32,
) -> Result<(), AllocError>
    requires home { V.holds view.old (V.home view.old) }
    requires ready { AreReady V.holds V.now view.old deeds.old }
    requires may { (w : World) → V.holds view.old w → may_log_in_of (scene_of deeds.old (V.now view.old w) foreground_ticks) connection player ≡ true }
    ensures lasts { Lasts V.holds V.home V.anchor view.old view.new result }
    ensures left { OnOk result (Goes V.holds V.now view.old view.new
        (λ before after. (t : ℕ) → scene_of deeds.new after t ≡ logged_in (scene_of deeds.old before t) connection player)) }
{
    relink(alloc, view, deeds, connection, player)?;
    greet(alloc, view, deeds, player)
}

// The player has the link, and any older one is closed.
fn relink<V: View>(
    alloc: Global,
    view: &mut V,
    deeds: &mut Deeds,
    connection: i32,
    player: i32,
) -> Result<(), AllocError>
    requires home { V.holds view.old (V.home view.old) }
    requires ready { AreReady V.holds V.now view.old deeds.old }
    requires may { (w : World) → V.holds view.old w → may_log_in_of (scene_of deeds.old (V.now view.old w) foreground_ticks) connection player ≡ true }
    ensures lasts { Lasts V.holds V.home V.anchor view.old view.new result }
    ensures ready { OnOk result (AreReady V.holds V.now view.new deeds.new) }
    ensures left { OnOk result (Goes V.holds V.now view.old view.new
        (λ before after. (t : ℕ) → scene_of deeds.new after t ≡ relinked (scene_of deeds.old before t) connection player)) }
{
    close_connection_of(view, deeds, player)?;
    write_link(view, connection, Some(Link::new(player)))?;
    tell_line(alloc, deeds, connection, "*** Connected ***")
}

// `#0:user_connected` is queued, if it is there and the step has an id left.
fn greet<V: View>(
    alloc: Global,
    view: &mut V,
    deeds: &mut Deeds,
    player: i32,
) -> Result<(), AllocError>
    requires home { V.holds view.old (V.home view.old) }
    requires ready { AreReady V.holds V.now view.old deeds.old }
    ensures lasts { Lasts V.holds V.home V.anchor view.old view.new result }
    ensures left { OnOk result (Goes V.holds V.now view.old view.new (λ before after. (t : ℕ)
        → scene_of deeds.new after t ≡ greeted (scene_of deeds.old before t) player (find_verb before system (codes "user_connected")))) }
{
    let found = on_system(view, "user_connected")?;
    match found {
        Some(found) => queue_greeting(alloc, view, deeds, player, &found),
        None => Ok(()),
    }
}

// The verb that was found is queued, if the step has an id left.
fn queue_greeting<V: View>(
    alloc: Global,
    view: &mut V,
    deeds: &mut Deeds,
    player: i32,
    found: &FoundVerb,
) -> Result<(), AllocError>
    requires home { V.holds view.old (V.home view.old) }
    ensures lasts { Lasts V.holds V.home V.anchor view.old view.new result }
    ensures left { OnOk result (Goes V.holds V.now view.old view.new (λ before after. (t : ℕ)
        → scene_of deeds.new after t ≡ greeted (scene_of deeds.old before t) player (Some found.now))) }
{
    if deeds.ids_used >= MOST_IDS {
        return Ok(());
    }
    let id = task_id(deeds.number, deeds.ids_used)?;
    let task = greeting(alloc, deeds.moment, player, found)?;
    deeds.ids_used += 1;
    enqueue(view, deeds, id, task)
}

// The task that greets a player, due at a moment.
fn greeting(alloc: Global, moment: u32, player: i32, found: &FoundVerb) -> Result<Task, AllocError>
    ensures { IfOk result (λ task. (s : Scene) → s.moment ≡ moment → task ≡ user_task s player found.now) }
{
    let argstr = Text::from_str(alloc, "")?;
    let arguments = one_object(alloc, player)?;
    let running = system_task(
        alloc,
        player,
        "user_connected",
        argstr,
        arguments,
        found,
        QUEUED_TICKS,
    )?;
    let Running {
        player: _,
        frame,
        outer: _,
    } = running;
    let task = Task::forked(alloc, player, moment, frame)?;
    Ok(task)
}

/// A list of one object.
pub fn one_object(alloc: Global, object: i32) -> Result<Value, AllocError>
    ensures { IfOk result (λ v. v ≡ list (item (object_value object) no_data)) }
{
    let mut items = Vec::new(alloc);
    items.push(Value::object(object))?;
    Value::list(items)
}
