//! The reader of a stream.

ghost use Rattle.std.specs.Prelude.{◌≡◌, ◌++◌, ℕ, List, [], IfOk, OnErr};
ghost use Rattle.std.specs.List.{AllByRecursion};
ghost use Rattle.telnet_line.specs.Telnet as telnet;
ghost use Rattle.telnet_line.specs.TelnetReading.{HasRead};
ghost use Rattle.telnet_line.specs.Events.{events_given};

use crate::draft::{Begun, Draft};
use crate::event::Event;
use crate::line_buffer::LineBuffer;
use std::alloc::{AllocError, Global};
use std::marker::Model;

/// A reader of one Telnet stream (RFC 854), which comes in any pieces.
///
/// It keeps the characters of lines, obeys the commands EC and EL, answers AYT, refuses every option, and skips
/// subnegotiations and all other commands. Between two pieces it holds back which unit has begun, and at most 4,096
/// characters of the line that has not ended.
#[derive(Debug, Drop)]
pub struct Reader {
    begun: Begun,
    line: LineBuffer,
}

impl Model for Reader {
    ghost use Rattle.telnet_line.specs.TelnetReading.{Reading};

    ghost Value = { Reading };

    ghost use Rattle.telnet_line.specs.Drafts.{begun_of};

    ghost view = { λ a. record { begun = begun_of a.begun; line = a.line } };
}

impl Reader {
    /// A reader that has read nothing.
    pub fn new(alloc: Global) -> Self
        ensures { HasRead [] [] result }
    {
        Reader {
            begun: Begun::Nothing,
            line: LineBuffer::new(alloc),
        }
    }

    /// Takes the next piece of the stream, and gives the lines and replies that it brings, in order.
    ///
    /// A line ends with CR LF or LF alone. Where memory runs out, the reader is as it was and the piece can be fed again.
    pub fn feed(&mut self, alloc: Global, piece: &[u8]) -> Result<Vec<Event>, AllocError>
        // Whatever stream the reader has read, it has now read that stream and the piece after it,
        // and its events are those before and these: where the pieces end does not matter.
        ensures ok { IfOk result (λ events. (stream : List ℕ) (past : List telnet.Event) →
            HasRead stream past self.old → HasRead (stream ++ piece.now) (past ++ events_given events.items) self.new) }
        ensures lines { IfOk result (λ events. AllByRecursion telnet.IsEvent (events_given events.items)) }
        ensures err { OnErr result (self.new ≡ self.old) }
    {
        let mut draft = Draft {
            begun: self.begun,
            line: self.line.copy(alloc)?,
            events: Vec::new(alloc),
        };
        draft.take_all(alloc, piece)?;
        let Draft {
            begun,
            line,
            events,
        } = draft;
        self.begun = begun;
        self.line = line;
        Ok(events)
    }
}
