//! Lines read as commands.
ghost use Rattle.std.specs.Prelude.{◌≡◌, Some, IfOk, IsTrue, codes};
ghost use Rattle.spec_value.specs.Datum.{is_text, same_text};
ghost use Rattle.spec_world.specs.World.{object_at};
ghost use Rattle.spec_world.specs.Naming.{location_of};
ghost use Rattle.spec_world.specs.VerbsSought.{find_verb as find_verb_of};
ghost use Rattle.spec_world.specs.CommandLines.{command_said, command_or_program, command_of as command_meant};
ghost use Rattle.spec_world.specs.CommandLines.{named_by, asks_to_program as asks_to_program_of, huh_or_not};
ghost use Rattle.rules.specs.Lines.{AreAgreeing};
ghost use Rattle.view.specs.Law.{Lasts, Tells};
ghost use Rattle.player_commands.specs.CommandLinesMeant.{parts_of};
ghost use Rattle.player_commands.specs.Meanings.{named_of, command_of};

use crate::command_lines::parts::{Parts, line_parts};
use crate::command_parser::command::{Command, Said};
use crate::command_parser::request::Request;
use crate::command_parser::sought::verb_meant;
use crate::object_match::naming::name_object;
use crate::object_match::place::location;
use moo_value::text::Text;
use rules::inherit::verb::find_verb;
use rules::permissions::may::is_programmer;
use std::alloc::{AllocError, Global};
use view::law::View;

/// What a player's line asks for. Spaces at its front are dropped, and `"`, `:` and `;` there stand for `say `, `emote ` and `eval `.
pub fn parse<V: View>(
    alloc: Global,
    view: &mut V,
    player: i32,
    line: &Text,
) -> Result<Command, AllocError>
    requires home { V.holds view.old (V.home view.old) }
    requires well_formed { AreAgreeing V.holds V.now view.old }
    requires line { IsTrue (is_text line.now) }
    ensures lasts { Lasts V.holds V.home V.anchor view.old view.new result }
    ensures left { IfOk result (λ c. Tells V.holds V.now view.old view.new (λ w. command_said w player line.now ≡ command_of c)) }
{
    let parts = line_parts(alloc, line)?;
    match parts {
        Some(parts) => command_or_program(alloc, view, player, parts),
        None => Ok(Command::Empty),
    }
}

// What a line of these parts asks for.
fn command_or_program<V: View>(
    alloc: Global,
    view: &mut V,
    player: i32,
    parts: Parts,
) -> Result<Command, AllocError>
    requires home { V.holds view.old (V.home view.old) }
    requires well_formed { AreAgreeing V.holds V.now view.old }
    ensures lasts { Lasts V.holds V.home V.anchor view.old view.new result }
    ensures left { IfOk result (λ c. Tells V.holds V.now view.old view.new
        (λ w. command_or_program w player (Some (parts_of parts)) ≡ command_of c)) }
{
    let programs = asks_to_program(view, player, &parts)?;
    if programs {
        let request = Request::of(alloc, &parts.args)?;
        return Ok(Command::Program(request));
    }
    let said = with_objects(alloc, view, player, parts)?;
    command(view, player, said)
}

// Whether it is a programmer's `.program`.
fn asks_to_program<V: View>(view: &mut V, player: i32, parts: &Parts) -> Result<bool, AllocError>
    requires { V.holds view.old (V.home view.old) }
    ensures lasts { Lasts V.holds V.home V.anchor view.old view.new result }
    ensures left { IfOk result (λ b. Tells V.holds V.now view.old view.new (λ w. asks_to_program_of w player (parts_of parts.now) ≡ b)) }
{
    let asked = is_program(parts.verb.as_str().as_bytes());
    if !asked {
        return Ok(false);
    }
    is_programmer(view, player)
}

fn is_program(word: &[u8]) -> bool
    ensures { result ≡ same_text word.now (codes ".program") }
{
    word == b".program".as_slice()
}

// The parts with the objects that they name.
fn with_objects<V: View>(
    alloc: Global,
    view: &mut V,
    player: i32,
    parts: Parts,
) -> Result<Said, AllocError>
    requires home { V.holds view.old (V.home view.old) }
    requires well_formed { AreAgreeing V.holds V.now view.old }
    ensures lasts { Lasts V.holds V.home V.anchor view.old view.new result }
    ensures parts { IfOk result (λ s. parts_of s.parts ≡ parts_of parts) }
    ensures left { IfOk result (λ s. Tells V.holds V.now view.old view.new (λ w. named_by w player (parts_of parts) ≡ named_of s)) }
{
    let direct = name_object(alloc, view, player, parts.dobjstr.as_str())?;
    let indirect = name_object(alloc, view, player, parts.iobjstr.as_str())?;
    Ok(Said::new(parts, direct, indirect))
}

// The command whose objects are known.
fn command<V: View>(view: &mut V, player: i32, said: Said) -> Result<Command, AllocError>
    requires home { V.holds view.old (V.home view.old) }
    requires well_formed { AreAgreeing V.holds V.now view.old }
    ensures lasts { Lasts V.holds V.home V.anchor view.old view.new result }
    ensures left { IfOk result (λ c. Tells V.holds V.now view.old view.new
        (λ w. command_meant w player (parts_of said.parts) (named_of said) ≡ command_of c)) }
{
    if let Some(meant) = verb_meant(view, player, &said)? {
        return Ok(Command::Verb(said, meant));
    }
    huh(view, player, said)
}

// A call of the room's `huh`, if it has one.
#[inline(never)]
fn huh<V: View>(view: &mut V, player: i32, said: Said) -> Result<Command, AllocError>
    requires home { V.holds view.old (V.home view.old) }
    requires well_formed { AreAgreeing V.holds V.now view.old }
    ensures lasts { Lasts V.holds V.home V.anchor view.old view.new result }
    ensures left { IfOk result (λ c. Tells V.holds V.now view.old view.new
        (λ w. huh_or_not (parts_of said.parts) (named_of said) (find_verb_of w (location_of (object_at w player)) (codes "huh")) ≡ command_of c)) }
{
    let room = location(view, player)?;
    let verb = find_verb(view, room, "huh")?;
    Ok(Command::huh_or_not(said, verb))
}
