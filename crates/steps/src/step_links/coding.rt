//! The line that ends a verb's code: the verb has the program that the lines are.
ghost use Rattle.std.specs.Prelude.{◌≡◌, ℕ, ℤ, Some, None, MatchOption, IfOk, OnOk};
ghost use Rattle.spec_value.specs.Table.{at};
ghost use Rattle.spec_program.specs.ReadPrograms.{Parsed, program as program_read, parsed_lines};
ghost use Rattle.spec_world.specs.World.{World};
ghost use Rattle.spec_world.specs.Members.{verb_changed};
ghost use Rattle.spec_world.specs.Permissions.{in_place};
ghost use Rattle.spec_moo.specs.Steps.Events.{foreground_ticks};
ghost use Rattle.spec_moo.specs.Steps.Programming.{ends, ends_at, ends_with, written};
ghost use Rattle.syntax_fault.specs.Meaning.{IsFaultOrMemory};
ghost use Rattle.moo_task.specs.Deeds.{scene_of};
ghost use Rattle.view.specs.Law.{Goes, Lasts};
ghost use Rattle.builtins_view.specs.Programs.{with_program};
ghost use Rattle.steps.specs.StepsPerformed.{ComesTo, came_to_of};
ghost use Rattle.steps.specs.Ready.{AreReady};
ghost use Rattle.steps.specs.Codes.{HasVerb, HasVerbAt};

use crate::step_links::faults::fault_text;
use crate::step_tasks::finish::Finish;
use crate::step_tasks::opening::says;
use builtins_view::builtins_change::put::put_program;
use moo_compiler::joined::joined;
use moo_compiler::program::Program;
use moo_syntax::parse::parse;
use moo_task::deeds::Deeds;
use moo_tree::statement::Tree;
use moo_value::text::Text;
use player_commands::command_parser::programming::programmable;
use std::alloc::{AllocError, Global};
use syntax_fault::fault::SyntaxFault;
use view::law::View;
use view::link::{Link, Programming};
use view::lists::Lines;
use view::readers::{read_verbs, write_link};
use view::verb::Verb;

/// The lines are over: the verb has their program, if they are one, were not too long, and the player may still program it.
pub(crate) fn end<V: View>(
    alloc: Global,
    view: &mut V,
    deeds: &mut Deeds,
    connection: i32,
    link: &Link,
    programming: &Programming,
) -> Result<Finish, AllocError>
    requires home { V.holds view.old (V.home view.old) }
    requires ready { AreReady V.holds V.now view.old deeds.old }
    requires link { (w : World) → V.holds view.old w → at (V.now view.old w).links connection ≡ Some link.now }
    ensures lasts { Lasts V.holds V.home V.anchor view.old view.new result }
    ensures played { IfOk result (λ o. Goes V.holds V.now view.old view.new (λ before after.
        ComesTo (ends (scene_of deeds.old before foreground_ticks) connection link.now programming.now) after deeds.new o)) }
{
    let place = programmable(
        view,
        link.person,
        programming.object,
        programming.verb.as_str(),
    )?;
    write_link(view, connection, Some(Link::new(link.person)))?;
    let outcome = end_at(alloc, view, deeds, connection, programming, place)?;
    Ok(outcome)
}

// What comes of the lines, by where the verb stands, if the player may program it.
fn end_at<V: View>(
    alloc: Global,
    view: &mut V,
    deeds: &mut Deeds,
    connection: i32,
    programming: &Programming,
    place: Option<usize>,
) -> Result<Finish, AllocError>
    requires home { V.holds view.old (V.home view.old) }
    requires there { (w : World) → V.holds view.old w → HasVerbAt (V.now view.old w) programming.now.object place }
    ensures lasts { Lasts V.holds V.home V.anchor view.old view.new result }
    ensures played { IfOk result (λ o. Goes V.holds V.now view.old view.new (λ before after.
        ComesTo (ends_at (scene_of deeds.old before foreground_ticks) connection programming.now place) after deeds.new o)) }
{
    match place {
        Some(place) => {
            let outcome = end_with(
                alloc,
                view,
                deeds,
                connection,
                programming.object,
                place,
                &programming.lines,
            )?;
            Ok(outcome)
        }
        None => {
            let outcome = says(alloc, deeds, connection, "You can't program that verb.")?;
            Ok(outcome)
        }
    }
}

// What comes of the lines for a verb that may be programmed.
fn end_with<V: View>(
    alloc: Global,
    view: &mut V,
    deeds: &mut Deeds,
    connection: i32,
    object: i32,
    place: usize,
    lines: &Option<Lines>,
) -> Result<Finish, AllocError>
    requires home { V.holds view.old (V.home view.old) }
    requires there { (w : World) → V.holds view.old w → HasVerb (V.now view.old w) object place }
    ensures lasts { Lasts V.holds V.home V.anchor view.old view.new result }
    ensures played { IfOk result (λ o. Goes V.holds V.now view.old view.new (λ before after.
        ComesTo (ends_with (scene_of deeds.old before foreground_ticks) connection object place lines.now) after deeds.new o)) }
{
    match lines {
        Some(lines) => {
            let outcome = put_lines(
                alloc,
                view,
                deeds,
                connection,
                object,
                place,
                lines.as_slice(),
            )?;
            Ok(outcome)
        }
        None => {
            let outcome = says(alloc, deeds, connection, "Not programmed: too long.")?;
            Ok(outcome)
        }
    }
}

// The verb has the program of these lines, or the player is told their fault.
fn put_lines<V: View>(
    alloc: Global,
    view: &mut V,
    deeds: &mut Deeds,
    connection: i32,
    object: i32,
    place: usize,
    lines: &[Text],
) -> Result<Finish, AllocError>
    requires home { V.holds view.old (V.home view.old) }
    requires there { (w : World) → V.holds view.old w → HasVerb (V.now view.old w) object place }
    ensures lasts { Lasts V.holds V.home V.anchor view.old view.new result }
    ensures played { IfOk result (λ o. Goes V.holds V.now view.old view.new (λ before after.
        ComesTo (written (scene_of deeds.old before foreground_ticks) connection object place (parsed_lines lines.now)) after deeds.new o)) }
{
    let text = joined(alloc, lines)?;
    match parse(alloc, text.as_bytes()) {
        Ok(tree) => {
            let outcome = put_tree(alloc, view, deeds, connection, object, place, tree)?;
            Ok(outcome)
        }
        Err(fault) => {
            let outcome = tell_fault(alloc, deeds, connection, fault)?;
            Ok(outcome)
        }
    }
}

// The verb has the program of this tree.
fn put_tree<V: View>(
    alloc: Global,
    view: &mut V,
    deeds: &mut Deeds,
    connection: i32,
    object: i32,
    place: usize,
    tree: Tree,
) -> Result<Finish, AllocError>
    requires home { V.holds view.old (V.home view.old) }
    requires there { (w : World) → V.holds view.old w → HasVerb (V.now view.old w) object place }
    ensures lasts { Lasts V.holds V.home V.anchor view.old view.new result }
    ensures played { IfOk result (λ o. Goes V.holds V.now view.old view.new (λ before after.
        ComesTo (written (scene_of deeds.old before foreground_ticks) connection object place (program_read tree)) after deeds.new o)) }
{
    let program = Program::compile(alloc, tree)?;
    replace_program(alloc, view, object, place, program)?;
    let outcome = says(alloc, deeds, connection, "Verb programmed.")?;
    Ok(outcome)
}

// The verb that stands at a place has another program.
fn replace_program<V: View>(
    alloc: Global,
    view: &mut V,
    object: i32,
    place: usize,
    program: Program,
) -> Result<(), AllocError>
    requires home { V.holds view.old (V.home view.old) }
    requires there { (w : World) → V.holds view.old w → HasVerb (V.now view.old w) object place }
    ensures lasts { Lasts V.holds V.home V.anchor view.old view.new result }
    ensures left { OnOk result (Goes V.holds V.now view.old view.new
        (λ before after. after ≡ verb_changed before object place (with_program program))) }
{
    let Some(verbs) = read_verbs(view, object)? else {
        unreachable!()
    };
    let Some(verb) = verb_at(verbs.as_slice(), place) else {
        unreachable!()
    };
    put_program(alloc, view, object, verbs.as_slice(), place, verb, program)
}

#[tactic(auto, using(rules::proofs::Places::stands_there, rules::proofs::Places::stands_none))]
fn verb_at(verbs: &[Verb], place: usize) -> Option<&Verb>
    ensures { MatchOption result (in_place verbs.now place ≡ None) (λ v. in_place verbs.now place ≡ Some v.now) }
{
    if place < verbs.len() {
        Some(&verbs[place])
    } else {
        None
    }
}

// The player is told of a text's fault, and the verb stays as it is.
fn tell_fault(
    alloc: Global,
    deeds: &mut Deeds,
    connection: i32,
    fault: SyntaxFault,
) -> Result<Finish, AllocError>
    ensures { IfOk result (λ o. (p : Parsed) → IsFaultOrMemory fault p → (w : World) (t : ℕ) (object : ℤ) (place : ℕ)
        → written (scene_of deeds.old w t) connection object place p ≡ came_to_of deeds.new o w) }
{
    let line = fault_text(alloc, fault)?;
    line.know();
    let outcome = says(alloc, deeds, connection, line.as_str())?;
    Ok(outcome)
}
