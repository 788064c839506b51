//! `.program`: lines that a player types for a verb's code (Programmer's Manual, "Built-in Commands").
ghost use Rattle.std.specs.Prelude.{◌≡◌, ◌++◌, Some, IfOk, codes};
ghost use Rattle.std.specs.Fmt.{signed_decimal};
ghost use Rattle.spec_value.specs.Table.{at};
ghost use Rattle.spec_world.specs.World.{World};
ghost use Rattle.spec_moo.specs.Steps.Events.{foreground_ticks};
ghost use Rattle.spec_moo.specs.Steps.Programming.{begins, requested};
ghost use Rattle.player_commands.specs.Meanings.{request_of};
ghost use Rattle.player_commands.specs.Openings.{opened};
ghost use Rattle.moo_task.specs.Deeds.{scene_of};
ghost use Rattle.view.specs.Law.{Goes, Lasts};
ghost use Rattle.steps.specs.StepsPerformed.{ComesTo};
ghost use Rattle.steps.specs.Ready.{AreReady};

use crate::step_tasks::finish::Finish;
use crate::step_tasks::opening::says;
use moo_task::deeds::Deeds;
use moo_value::text::Text;
use moo_value::value::Value;
use moo_value::write::to_str;
use player_commands::command_parser::programming::{Opening, open};
use player_commands::command_parser::request::Request;
use std::alloc::{AllocError, Global};
use view::law::View;
use view::link::{Link, Programming};
use view::lists::Lines;
use view::readers::write_link;

/// A player's `.program` line.
#[inline(never)]
pub fn request<V: View>(
    alloc: Global,
    view: &mut V,
    deeds: &mut Deeds,
    connection: i32,
    link: &Link,
    request: Request,
) -> Result<Finish, AllocError>
    requires home { V.holds view.old (V.home view.old) }
    requires ready { AreReady V.holds V.now view.old deeds.old }
    requires link { (w : World) → V.holds view.old w → at (V.now view.old w).links connection ≡ Some link.now }
    ensures lasts { Lasts V.holds V.home V.anchor view.old view.new result }
    ensures played { IfOk result (λ o. Goes V.holds V.now view.old view.new (λ before after.
        ComesTo (requested (scene_of deeds.old before foreground_ticks) connection link.now.person (request_of request)) after deeds.new o)) }
{
    let opening = open(alloc, view, link.person, request)?;
    let outcome = answer(alloc, view, deeds, connection, link, opening)?;
    Ok(outcome)
}

// What comes of a `.program` line.
fn answer<V: View>(
    alloc: Global,
    view: &mut V,
    deeds: &mut Deeds,
    connection: i32,
    link: &Link,
    opening: Opening,
) -> Result<Finish, AllocError>
    requires home { V.holds view.old (V.home view.old) }
    requires ready { AreReady V.holds V.now view.old deeds.old }
    requires link { (w : World) → V.holds view.old w → at (V.now view.old w).links connection ≡ Some link.now }
    ensures lasts { Lasts V.holds V.home V.anchor view.old view.new result }
    ensures played { IfOk result (λ o. Goes V.holds V.now view.old view.new (λ before after.
        ComesTo (opened (scene_of deeds.old before foreground_ticks) connection link.now.person opening) after deeds.new o)) }
{
    match opening {
        Opening::OtherForm => {
            let outcome = says(alloc, deeds, connection, "Usage: .program object:verb")?;
            Ok(outcome)
        }
        Opening::NotSeen => {
            let outcome = says(alloc, deeds, connection, "I don't see that here.")?;
            Ok(outcome)
        }
        Opening::NotAllowed => {
            let outcome = says(alloc, deeds, connection, "You can't program that verb.")?;
            Ok(outcome)
        }
        Opening::Collects(object, verb, place) => {
            let outcome = begin_lines(alloc, view, deeds, connection, link, object, verb, place)?;
            Ok(outcome)
        }
    }
}

// The lines that follow are collected for a verb.
fn begin_lines<V: View>(
    alloc: Global,
    view: &mut V,
    deeds: &mut Deeds,
    connection: i32,
    link: &Link,
    object: i32,
    verb: Text,
    place: usize,
) -> Result<Finish, AllocError>
    requires home { V.holds view.old (V.home view.old) }
    requires ready { AreReady V.holds V.now view.old deeds.old }
    requires link { (w : World) → V.holds view.old w → at (V.now view.old w).links connection ≡ Some link.now }
    ensures lasts { Lasts V.holds V.home V.anchor view.old view.new result }
    ensures played { IfOk result (λ o. Goes V.holds V.now view.old view.new (λ before after.
        ComesTo (begins (scene_of deeds.old before foreground_ticks) connection link.now.person object verb (Some place)) after deeds.new o)) }
{
    let line = now_programming(alloc, object, &verb)?;
    let programming = Programming {
        object,
        verb,
        lines: Some(Lines::new(alloc, Vec::new(alloc))?),
    };
    let collecting = Link {
        person: link.person,
        programming: Some(programming),
    };
    write_link(view, connection, Some(collecting))?;
    line.know();
    let outcome = says(alloc, deeds, connection, line.as_str())?;
    Ok(outcome)
}

// What a player is told whose lines are collected.
fn now_programming(alloc: Global, object: i32, verb: &Text) -> Result<Text, AllocError>
    ensures { IfOk result (λ t. t ≡ codes "Now programming #" ++ (signed_decimal object ++ (codes ":" ++ (verb.now ++ codes ".")))) }
{
    let object = Value::object(object);
    object.know();
    let number = to_str(alloc, &object)?;
    let first = Text::joined(alloc, "Now programming ", number.as_str(), ":")?;
    first.know();
    verb.know();
    Text::joined(alloc, first.as_str(), verb.as_str(), ".")
}
