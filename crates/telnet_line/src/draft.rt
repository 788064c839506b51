//! A reader in the middle of a piece.

ghost use Rattle.std.specs.Prelude.{◌≡◌, ◌++◌, ◌<◌, ◌≤◌, ℕ, true, List, [], length, take, OnOk, IfOk, OnErr};
ghost use Rattle.std.specs.List.{list_all};
ghost use Rattle.spec_value.specs.Datum as datum;
ghost use Rattle.telnet_line.specs.Telnet as telnet;
ghost use Rattle.telnet_line.specs.TelnetReading as reading;
ghost use Rattle.telnet_line.specs.TelnetSteps.{takes, holds, replies, step_data, step_return, step_iac, step_by, step};
ghost use Rattle.telnet_line.specs.Drafts.{verb_of, begun_of, reading_of, Stepped, ReadsUpTo, ReadsAll};

use crate::command;
use crate::event::Event;
use crate::line_buffer::{LineBuffer, kept_count};
use std::alloc::{AllocError, Global};

/// What the other side says of an option.
#[derive(Clone, Copy, Debug)]
pub enum Verb {
    Will,
    Wont,
    Do,
    Dont,
}

/// What has begun of the next unit.
#[derive(Clone, Copy, Debug)]
pub enum Begun {
    Nothing,
    /// A carriage return.
    Return,
    /// An `IAC`.
    Iac,
    /// An `IAC` and one of the four verbs.
    Negotiating(Verb),
    /// A subnegotiation.
    Parameters,
    /// An `IAC` in a subnegotiation.
    ParametersIac,
}

/// A reader in the middle of a piece.
#[derive(Drop)]
pub struct Draft {
    pub begun: Begun,
    pub line: LineBuffer,
    pub events: Vec<Event>,
}

impl Draft {
    /// Brings nothing, and holds this back.
    fn wait(&mut self, next: Begun)
        ensures { Stepped (holds (begun_of next) self.old.line) self.old self.new }
    {
        self.begun = next;
    }

    /// Ends the line.
    fn end_line(&mut self, alloc: Global) -> Result<(), AllocError>
        ensures { OnOk result (Stepped (takes telnet.Line_feed self.old.line) self.old self.new) }
    {
        let text = self.line.finish(alloc);
        self.events.push(Event::Line(text))?;
        self.begun = Begun::Nothing;
        Ok(())
    }

    /// Brings bytes that are to be sent back.
    fn reply(&mut self, alloc: Global, bytes: &[u8]) -> Result<(), AllocError>
        ensures { OnOk result (Stepped (replies bytes.now self.old.line) self.old self.new) }
    {
        let reply = Vec::from_slice(alloc, bytes)?;
        self.events.push(Event::Reply(reply))?;
        self.begun = Begun::Nothing;
        Ok(())
    }

    /// A byte where no unit has begun.
    fn data(&mut self, alloc: Global, byte: u8) -> Result<(), AllocError>
        ensures { OnOk result (Stepped (step_data byte self.old.line) self.old self.new) }
    {
        match byte {
            command::LF => self.end_line(alloc)?,
            command::CR => self.wait(Begun::Return),
            command::IAC => self.wait(Begun::Iac),
            _ => {
                self.line.push(byte)?;
                self.begun = Begun::Nothing;
            }
        }
        Ok(())
    }

    /// A byte after a carriage return.
    fn after_return(&mut self, alloc: Global, byte: u8) -> Result<(), AllocError>
        ensures { OnOk result (Stepped (step_return byte self.old.line) self.old self.new) }
    {
        match byte {
            command::LF => self.end_line(alloc)?,
            command::NUL => self.wait(Begun::Nothing),
            _ => self.data(alloc, byte)?,
        }
        Ok(())
    }

    /// A command that has no parameters.
    fn command(&mut self, alloc: Global, byte: u8) -> Result<(), AllocError>
        ensures { OnOk result (Stepped (takes (telnet.Command byte) self.old.line) self.old self.new) }
    {
        match byte {
            command::AYT => self.reply(alloc, b"[Yes]\r\n")?,
            command::EC => {
                self.line.erase_last();
                self.begun = Begun::Nothing;
            }
            command::EL => {
                self.line.erase();
                self.begun = Begun::Nothing;
            }
            _ => self.begun = Begun::Nothing,
        }
        Ok(())
    }

    /// A byte after an `IAC`.
    fn after_iac(&mut self, alloc: Global, byte: u8) -> Result<(), AllocError>
        ensures { OnOk result (Stepped (step_iac byte self.old.line) self.old self.new) }
    {
        if byte < command::SE {
            return self.data(alloc, byte);
        }
        match byte {
            command::SB => self.wait(Begun::Parameters),
            command::WILL => self.wait(Begun::Negotiating(Verb::Will)),
            command::WONT => self.wait(Begun::Negotiating(Verb::Wont)),
            command::DO => self.wait(Begun::Negotiating(Verb::Do)),
            command::DONT => self.wait(Begun::Negotiating(Verb::Dont)),
            command::IAC => self.wait(Begun::Nothing),
            _ => self.command(alloc, byte)?,
        }
        Ok(())
    }

    /// An option: the other side learns that this side neither performs it nor wants it performed.
    fn option(&mut self, alloc: Global, verb: Verb, byte: u8) -> Result<(), AllocError>
        ensures { OnOk result (Stepped (takes (telnet.Negotiation (verb_of verb) byte) self.old.line) self.old self.new) }
    {
        match verb {
            Verb::Will => self.reply(alloc, &[command::IAC, command::DONT, byte])?,
            Verb::Do => self.reply(alloc, &[command::IAC, command::WONT, byte])?,
            Verb::Wont | Verb::Dont => self.wait(Begun::Nothing),
        }
        Ok(())
    }

    /// A byte of a subnegotiation.
    fn in_parameters(&mut self, byte: u8)
        ensures { Stepped (step_by reading.Parameters byte self.old.line) self.old self.new }
    {
        if byte == command::IAC {
            self.wait(Begun::ParametersIac);
        } else {
            self.wait(Begun::Parameters);
        }
    }

    /// A byte after an `IAC` in a subnegotiation, which alone can end it.
    fn in_parameters_after_iac(&mut self, byte: u8)
        ensures { Stepped (step_by reading.Parameters_iac byte self.old.line) self.old self.new }
    {
        if byte == command::SE {
            self.wait(Begun::Nothing);
        } else {
            self.wait(Begun::Parameters);
        }
    }

    /// The next byte, whatever has begun.
    fn take(&mut self, alloc: Global, byte: u8) -> Result<(), AllocError>
        ensures { OnOk result (Stepped (step byte (reading_of self.old)) self.old self.new) }
    {
        match self.begun {
            Begun::Nothing => self.data(alloc, byte)?,
            Begun::Return => self.after_return(alloc, byte)?,
            Begun::Iac => self.after_iac(alloc, byte)?,
            Begun::Negotiating(verb) => self.option(alloc, verb, byte)?,
            Begun::Parameters => self.in_parameters(byte),
            Begun::ParametersIac => self.in_parameters_after_iac(byte),
        }
        Ok(())
    }

    /// How many bytes at the beginning of a piece are characters that may be kept, where no unit has begun.
    fn ready_count(&self, piece: &[u8]) -> usize
        ensures within { result ≤ length piece.now }
        ensures kept { list_all datum.is_character (take result piece.now) ≡ true }
        ensures nothing { 0 < result → begun_of self.now.begun ≡ reading.Nothing }
    {
        match self.begun {
            Begun::Nothing => kept_count(piece),
            _ => 0,
        }
    }

    /// Takes the characters that a piece begins with.
    fn take_characters(&mut self, characters: &[u8]) -> Result<(), AllocError>
        requires nothing { begun_of self.old.begun ≡ reading.Nothing }
        requires kept { list_all datum.is_character characters.now ≡ true }
        ensures { OnOk result (ReadsAll characters.now self.old self.new) }
    {
        self.line.push_all(characters)?;
        Ok(())
    }

    /// Takes the characters that the piece begins with, or else one byte, and gives what is left of the piece.
    fn take_some<'a>(&mut self, alloc: Global, piece: &'a [u8]) -> Result<&'a [u8], AllocError>
        requires { 0 < length piece.now }
        ensures less { IfOk result (λ left. length left.now < length piece.now) }
        ensures read { IfOk result (λ left. ReadsUpTo piece.now left.now self.old self.new) }
    {
        let count = self.ready_count(piece);
        if count == 0 {
            let (first, left) = piece.split_at(1);
            self.take(alloc, first[0])?;
            return Ok(left);
        }
        let (characters, left) = piece.split_at(count);
        self.take_characters(characters)?;
        Ok(left)
    }

    /// All bytes of a piece.
    pub fn take_all(&mut self, alloc: Global, piece: &[u8]) -> Result<(), AllocError>
        ensures { OnOk result (ReadsAll piece.now self.old self.new) }
    {
        let mut left = piece;
        while !left.is_empty() {
            left = self.take_some(alloc, left)?;
        }
        Ok(())
    }
}
