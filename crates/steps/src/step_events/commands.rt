//! Commands of players.
ghost use Rattle.std.specs.Prelude.{◌≡◌, ℤ, Some, IfOk};
ghost use Rattle.spec_value.specs.Datum.{of_list};
ghost use Rattle.spec_value.specs.Table.{at};
ghost use Rattle.spec_world.specs.World.{World};
ghost use Rattle.spec_world.specs.CommandLines.{calls_huh};
ghost use Rattle.spec_moo.specs.Natives.Properties.{as_texts};
ghost use Rattle.spec_moo.specs.Steps.Running.{begun};
ghost use Rattle.spec_moo.specs.Steps.Events.{player_line as player_line_of, command_run, command_call as command_call_of, command_start, foreground_ticks};
ghost use Rattle.player_commands.specs.CommandLinesMeant.{parts_of};
ghost use Rattle.player_commands.specs.Meanings.{command_of, named_of};
ghost use Rattle.player_commands.specs.declared.command_parser.command.Command.TheVariants.{Verb as CallsVerb};
ghost use Rattle.moo_task.specs.Deeds.{scene_of};
ghost use Rattle.moo_task.specs.Outcomes.{ticks_of};
ghost use Rattle.view.specs.Law.{Goes, Lasts};
ghost use Rattle.steps.specs.StepsPerformed.{ComesTo};
ghost use Rattle.steps.specs.Ready.{AreReady};
ghost use Rattle.steps.specs.Tasks.{MayRun};

use crate::step_links::programming::request;
use crate::step_runs::play::play_task;
use crate::step_tasks::begin::{begin, program_of};
use crate::step_tasks::finish::Finish;
use crate::step_tasks::opening::{FOREGROUND_TICKS, says};
use builtins_view::builtins_world::values::texts_value;
use moo_program::program::Program;
use moo_task::deeds::Deeds;
use moo_task::moo_machine::call::{Call, Start};
use moo_task::room::Room;
use moo_task::running::Running;
use moo_value::text::Text;
use player_commands::command_lines::parts::Parts;
use player_commands::command_parser::command::{Command, Meant, Said};
use player_commands::command_parser::parse::parse;
use player_commands::object_match::place::location;
use rules::inherit::verb::FoundVerb;
use std::alloc::{AllocError, Global};
use step_deeds::natives::Natives;
use view::law::View;
use view::link::Link;

/// A player's line is a command.
pub fn player_line<V: View, N: Natives>(
    alloc: Global,
    view: &mut V,
    natives: &mut N,
    deeds: &mut Deeds,
    connection: i32,
    link: &Link,
    text: &Text,
) -> Result<Finish, AllocError>
    requires home { V.holds view.old (V.home view.old) }
    requires ready { AreReady V.holds V.now view.old deeds.old }
    requires link { (w : World) → V.holds view.old w → at (V.now view.old w).links connection ≡ Some link.now }
    ensures lasts { Lasts V.holds V.home V.anchor view.old view.new result }
    ensures played { IfOk result (λ o. Goes V.holds V.now view.old view.new (λ before after.
        ComesTo (player_line_of (scene_of deeds.old before foreground_ticks) connection link.now.person text.now) after deeds.new o)) }
{
    text.know();
    let command = parse(alloc, view, link.person, text)?;
    run_command(alloc, view, natives, deeds, connection, link, command)
}

// What a command does.
fn run_command<V: View, N: Natives>(
    alloc: Global,
    view: &mut V,
    natives: &mut N,
    deeds: &mut Deeds,
    connection: i32,
    link: &Link,
    command: Command,
) -> Result<Finish, AllocError>
    requires home { V.holds view.old (V.home view.old) }
    requires ready { AreReady V.holds V.now view.old deeds.old }
    requires link { (w : World) → V.holds view.old w → at (V.now view.old w).links connection ≡ Some link.now }
    ensures lasts { Lasts V.holds V.home V.anchor view.old view.new result }
    ensures played { IfOk result (λ o. Goes V.holds V.now view.old view.new (λ before after.
        ComesTo (command_run (scene_of deeds.old before foreground_ticks) connection link.now.person (command_of command)) after deeds.new o)) }
{
    match command {
        Command::Empty => Ok(Finish::nothing()),
        Command::Program(asked) => request(alloc, view, deeds, connection, link, asked),
        Command::Verb(said, meant) => run_verb(
            alloc,
            view,
            natives,
            deeds,
            link.person,
            said,
            meant,
        ),
        Command::Huh(said, found) => run_huh(
            alloc,
            view,
            natives,
            deeds,
            link.person,
            said,
            &found,
        ),
        Command::Unknown => says(alloc, deeds, connection, "I couldn't understand that."),
    }
}

// The verb that is meant runs.
fn run_verb<V: View, N: Natives>(
    alloc: Global,
    view: &mut V,
    natives: &mut N,
    deeds: &mut Deeds,
    player: i32,
    said: Said,
    meant: Meant,
) -> Result<Finish, AllocError>
    requires home { V.holds view.old (V.home view.old) }
    requires ready { AreReady V.holds V.now view.old deeds.old }
    ensures lasts { Lasts V.holds V.home V.anchor view.old view.new result }
    ensures played { IfOk result (λ o. (c : ℤ) → Goes V.holds V.now view.old view.new (λ before after.
        ComesTo (command_run (scene_of deeds.old before foreground_ticks) c player (command_of (CallsVerb said meant))) after deeds.new o)) }
{
    let Meant { this, verb } = meant;
    let word = said.parts.verb.clone()?;
    let call = command_call(player, this, word, &verb);
    let program = program_of(&verb)?;
    let task = command_task(alloc, natives.take_room(alloc), player, call, said, program)?;
    play_task(alloc, view, natives, deeds, task)
}

// The room's `huh` runs.
#[inline(never)]
fn run_huh<V: View, N: Natives>(
    alloc: Global,
    view: &mut V,
    natives: &mut N,
    deeds: &mut Deeds,
    player: i32,
    said: Said,
    found: &FoundVerb,
) -> Result<Finish, AllocError>
    requires home { V.holds view.old (V.home view.old) }
    requires ready { AreReady V.holds V.now view.old deeds.old }
    ensures lasts { Lasts V.holds V.home V.anchor view.old view.new result }
    ensures played { IfOk result (λ o. (c : ℤ) → Goes V.holds V.now view.old view.new (λ before after.
        ComesTo (command_run (scene_of deeds.old before foreground_ticks) c player (calls_huh (parts_of said.parts) (named_of said) found.now)) after deeds.new o)) }
{
    let room = location(view, player)?;
    let word = Text::from_str(alloc, "huh")?;
    let call = command_call(player, room, word, found);
    let program = program_of(found)?;
    let task = command_task(alloc, natives.take_room(alloc), player, call, said, program)?;
    play_task(alloc, view, natives, deeds, task)
}

// Who runs a verb that a command names.
#[inline(always)]
fn command_call(player: i32, this: i32, word: Text, found: &FoundVerb) -> Call
    ensures { result ≡ command_call_of player this word found.now }
{
    let definer = found.definer();
    let owned = found.verb();
    Call {
        this,
        caller: player,
        definer,
        programmer: owned.owner,
        verb: word,
        debug: owned.debug,
    }
}

// A task that begins with a verb for a command, in this room, whose first word its variable `verb` has.
#[inline(always)]
fn command_task(
    alloc: Global,
    room: Room,
    player: i32,
    call: Call,
    said: Said,
    program: Program,
) -> Result<Running, AllocError>
    ensures runs { IfOk result (λ r. MayRun r (begun player call (parts_of said.parts).verb (command_start (parts_of said.parts) (named_of said))
        (of_list (as_texts (parts_of said.parts).args)) program)) }
    ensures ticks { IfOk result (λ r. ticks_of r ≡ foreground_ticks) }
{
    let Said {
        parts,
        direct,
        indirect,
    } = said;
    let Parts {
        verb,
        args,
        argstr,
        preposition: _,
        dobjstr,
        prepstr,
        iobjstr,
    } = parts;
    let arguments = texts_value(alloc, &args)?;
    let start = Start {
        argstr,
        dobj: direct,
        dobjstr,
        prepstr,
        iobj: indirect,
        iobjstr,
    };
    let task = begin(
        alloc,
        room,
        player,
        call,
        verb,
        start,
        arguments,
        program,
        FOREGROUND_TICKS,
    )?;
    Ok(task)
}
