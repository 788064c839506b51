//! What a line asks for.
ghost use Rattle.std.specs.Prelude.{◌≡◌, option_map};
ghost use Rattle.spec_world.specs.CommandLines.{huh_or_not};
ghost use Rattle.player_commands.specs.CommandLinesMeant.{parts_of};
ghost use Rattle.rules.specs.Sought.{parts_of as wanted_of};
ghost use Rattle.player_commands.specs.Meanings.{command_of, named_of, meant_of, on_object};

use crate::command_lines::parts::Parts;
use crate::command_parser::request::Request;
use rules::inherit::verb::{CommandParts, FoundVerb};

/// What a player's line asks for.
#[derive(Drop)]
pub enum Command {
    /// Nothing: the line has no words.
    Empty,
    /// A programmer's `.program`.
    Program(Request),
    /// A call of the verb that is meant.
    Verb(Said, Meant),
    /// A call of the verb `huh` of the player's room, since no verb is meant. Its variable `verb` has the word that was typed.
    Huh(Said, FoundVerb),
    /// No verb is meant, and the room has no `huh`: `I couldn't understand that.`
    Unknown,
}

impl Command {
    // A call of `huh`, if there is one.
    pub(crate) fn huh_or_not(said: Said, verb: Option<FoundVerb>) -> Command
        ensures { command_of result ≡ huh_or_not (parts_of said.parts) (named_of said) verb }
    {
        match verb {
            Some(verb) => Command::Huh(said, verb),
            None => Command::Unknown,
        }
    }
}

/// The parts of a command, and the objects that they name: what a verb that is called for it starts with.
#[derive(Drop)]
pub struct Said {
    /// The words. `args` are those behind the first one.
    pub parts: Parts,
    /// The direct object: -1 where it has no words, -2 where they name several objects, -3 where they name none.
    pub direct: i32,
    /// The indirect object, likewise.
    pub indirect: i32,
}

impl Said {
    pub(crate) fn new(parts: Parts, direct: i32, indirect: i32) -> Said
        ensures parts { parts_of result.parts ≡ parts_of parts }
        ensures named { named_of result ≡ record { direct = direct; preposition = parts.preposition; indirect = indirect } }
    {
        Said {
            parts,
            direct,
            indirect,
        }
    }

    /// What a verb may want of the command.
    pub(crate) fn named(&self) -> CommandParts
        ensures { wanted_of result ≡ named_of self.now }
    {
        CommandParts {
            direct: self.direct,
            preposition: self.parts.preposition,
            indirect: self.indirect,
        }
    }
}

/// The verb that a command means.
#[derive(Drop)]
pub struct Meant {
    /// The object on which it was sought, `this` of the call.
    pub this: i32,
    /// The verb, which may stand on an ancestor of that object.
    pub verb: FoundVerb,
}

impl Meant {
    // The verb that was found on an object, if there is one.
    pub(crate) fn on(this: i32, verb: Option<FoundVerb>) -> Option<Meant>
        ensures { option_map meant_of result ≡ on_object this verb }
    {
        let verb = verb?;
        Some(Meant { this, verb })
    }
}
