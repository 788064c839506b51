//! Lines of connections.
ghost use Rattle.std.specs.Prelude.{◌≡◌, ◌∷◌, Some, IfOk, IsTrue};
ghost use Rattle.spec_value.specs.Table.{at};
ghost use Rattle.spec_world.specs.World.{World};
ghost use Rattle.spec_world.specs.WellFormed.{is_connection};
ghost use Rattle.spec_world.specs.Links.{reader_of as reader_of_link};
ghost use Rattle.spec_world.specs.Words.{words, expanded};
ghost use Rattle.spec_world.specs.Step.{Step as StepOf};
ghost use Rattle.spec_moo.specs.Steps.Events.{line_on, line_taken, line_read, line_for as line_for_of, words_value as words_value_of, foreground_ticks};
ghost use Rattle.spec_value.specs.Datum.{list};
ghost use Rattle.moo_task.specs.Deeds.{scene_of};
ghost use Rattle.view.specs.Law.{Goes, Lasts};
ghost use Rattle.steps.specs.StepsPerformed.{ComesTo};
ghost use Rattle.steps.specs.Ready.{AreReady};
ghost use Rattle.steps.specs.Opens.{IsOpening};

use crate::step_events::commands::player_line;
use crate::step_events::login::login;
use crate::step_events::waiting::read_by;
use crate::step_links::collecting::collect;
use crate::step_links::logins::is_nobodys;
use crate::step_tasks::finish::Finish;
use builtins_view::builtins_world::values::texts_value;
use moo_task::deeds::Deeds;
use moo_value::text::Text;
use moo_value::value::Value;
use player_commands::command_lines::parts::{Parts, line_parts};
use std::alloc::{AllocError, Global};
use step_deeds::links::reader;
use step_deeds::natives::Natives;
use task_step::outcome::Ending;
use view::law::View;
use view::link::Link;
use view::readers::read_link;

/// A connection sends a line. Nothing happens where it is not open.
pub fn line<V: View, N: Natives>(
    alloc: Global,
    view: &mut V,
    natives: &mut N,
    deeds: &mut Deeds,
    connection: i32,
    text: &Text,
) -> Result<Finish, AllocError>
    requires home { V.holds view.old (V.home view.old) }
    requires ready { AreReady V.holds V.now view.old deeds.old }
    requires connection { IsTrue (is_connection connection) }
    ensures lasts { Lasts V.holds V.home V.anchor view.old view.new result }
    ensures played { IfOk result (λ o. (s : StepOf) → IsOpening s deeds.old → Goes V.holds V.now view.old view.new
        (λ before after. ComesTo (line_on s before connection text.now (at before.links connection)) after deeds.new o)) }
{
    let link = read_link(view, connection)?;
    match link {
        Some(link) => take_line(alloc, view, natives, deeds, connection, &link, text),
        None => Ok(Finish::idle(Ending::Nothing)),
    }
}

// A line of a link: it is collected, or else read by a task, or else a login or a command.
fn take_line<V: View, N: Natives>(
    alloc: Global,
    view: &mut V,
    natives: &mut N,
    deeds: &mut Deeds,
    connection: i32,
    link: &Link,
    text: &Text,
) -> Result<Finish, AllocError>
    requires home { V.holds view.old (V.home view.old) }
    requires ready { AreReady V.holds V.now view.old deeds.old }
    requires link { (w : World) → V.holds view.old w → at (V.now view.old w).links connection ≡ Some link.now }
    requires connection { IsTrue (is_connection connection) }
    ensures lasts { Lasts V.holds V.home V.anchor view.old view.new result }
    ensures played { IfOk result (λ o. Goes V.holds V.now view.old view.new (λ before after.
        ComesTo (line_taken (scene_of deeds.old before foreground_ticks) connection link.now text.now link.now.programming) after deeds.new o)) }
{
    match &link.programming {
        Some(programming) => collect(alloc, view, deeds, connection, link, programming, text),
        None => read_line(alloc, view, natives, deeds, connection, link, text),
    }
}

// A line that no program collects.
fn read_line<V: View, N: Natives>(
    alloc: Global,
    view: &mut V,
    natives: &mut N,
    deeds: &mut Deeds,
    connection: i32,
    link: &Link,
    text: &Text,
) -> Result<Finish, AllocError>
    requires home { V.holds view.old (V.home view.old) }
    requires ready { AreReady V.holds V.now view.old deeds.old }
    requires link { (w : World) → V.holds view.old w → at (V.now view.old w).links connection ≡ Some link.now }
    requires connection { IsTrue (is_connection connection) }
    ensures lasts { Lasts V.holds V.home V.anchor view.old view.new result }
    ensures played { IfOk result (λ o. Goes V.holds V.now view.old view.new (λ before after.
        ComesTo (line_read (scene_of deeds.old before foreground_ticks) connection link.now text.now (reader_of_link before connection)) after deeds.new o)) }
{
    let reader = reader(view, connection)?;
    match reader {
        Some(id) => {
            let value = Value::text(text.clone()?);
            read_by(alloc, view, natives, deeds, id, value)
        }
        None => line_for(alloc, view, natives, deeds, connection, link, text),
    }
}

// A line that no task reads.
fn line_for<V: View, N: Natives>(
    alloc: Global,
    view: &mut V,
    natives: &mut N,
    deeds: &mut Deeds,
    connection: i32,
    link: &Link,
    text: &Text,
) -> Result<Finish, AllocError>
    requires home { V.holds view.old (V.home view.old) }
    requires ready { AreReady V.holds V.now view.old deeds.old }
    requires link { (w : World) → V.holds view.old w → at (V.now view.old w).links connection ≡ Some link.now }
    requires connection { IsTrue (is_connection connection) }
    ensures lasts { Lasts V.holds V.home V.anchor view.old view.new result }
    ensures played { IfOk result (λ o. Goes V.holds V.now view.old view.new (λ before after.
        ComesTo (line_for_of (scene_of deeds.old before foreground_ticks) connection link.now text.now) after deeds.new o)) }
{
    let nobodys = is_nobodys(connection, link.person);
    if nobodys {
        let argstr = text.clone()?;
        let arguments = words_value(alloc, text)?;
        return login(alloc, view, natives, deeds, connection, argstr, arguments);
    }
    player_line(alloc, view, natives, deeds, connection, link, text)
}

// The words of a line, as a list.
#[inline(never)]
fn words_value(alloc: Global, text: &Text) -> Result<Value, AllocError>
    ensures { IfOk result (λ v. v ≡ list (words_value_of text.now)) }
{
    let words = words_typed(alloc, text)?;
    let value = texts_value(alloc, &words)?;
    Ok(value)
}

// The words of a line whose sign at its front is spelled out.
fn words_typed(alloc: Global, text: &Text) -> Result<Vec<Text>, AllocError>
    ensures { IfOk result (λ v. v.items ≡ words (expanded text.now)) }
{
    text.know();
    let parts = line_parts(alloc, text)?;
    match parts {
        Some(parts) => {
            let words = words_of(parts)?;
            Ok(words)
        }
        None => Ok(Vec::new(alloc)),
    }
}

// The words of a line: the first one, and those behind it.
fn words_of(parts: Parts) -> Result<Vec<Text>, AllocError>
    ensures { IfOk result (λ v. v.items ≡ parts.verb ∷ parts.args.items) }
{
    let Parts {
        verb,
        args,
        argstr: _,
        preposition: _,
        dobjstr: _,
        prepstr: _,
        iobjstr: _,
    } = parts;
    let mut words = args;
    words.insert(0, verb)?;
    Ok(words)
}
