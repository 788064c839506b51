//! The line that has not ended.

ghost use Rattle.std.specs.Prelude.{◌≡◌, ◌≤◌, true, [], length, take, IfOk, OnOk, OnErr};
ghost use Rattle.std.specs.List.{list_all};
ghost use Rattle.std.specs.String.{string_bytes};
ghost use Rattle.spec_value.specs.Datum as datum;
ghost use Rattle.telnet_line.specs.Telnet as telnet;
ghost use Rattle.telnet_line.specs.Telnet.{with_data, without_last};
ghost use Rattle.telnet_line.specs.TelnetSteps.{with_all};

use std::alloc::{AllocError, Global};
use std::marker::Model;

/// The most characters that are kept of a line.
const MAX_LINE: usize = 4096;

/// The characters of a line that are kept.
#[derive(Debug, Drop)]
pub struct LineBuffer {
    text: Vec<u8>,
}

impl Model for LineBuffer {
    ghost use Rattle.std.specs.Prelude.{ℕ, List};
    ghost use Rattle.telnet_line.specs.Telnet.{IsText};

    ghost Value = { List ℕ };

    ghost view = { λ a. a.text.items };

    ghost invariant = { λ a. IsText a.text.items };
}

/// Tab, and space to tilde.
fn is_character(byte: u8) -> bool
    ensures { result ≡ datum.is_character byte }
{
    byte == b'\t' || (b' ' <= byte && byte <= b'~')
}

/// How many characters that may be kept stand at the beginning of a piece.
pub fn kept_count(piece: &[u8]) -> usize
    ensures within { result ≤ length piece.now }
    ensures kept { list_all datum.is_character (take result piece.now) ≡ true }
{
    for (place, byte) in piece.iter().enumerate() {
        if !is_character(*byte) {
            return place;
        }
    }
    piece.len()
}

impl LineBuffer {
    pub fn new(alloc: Global) -> Self
        ensures { result ≡ [] }
    {
        LineBuffer {
            text: Vec::new(alloc),
        }
    }

    /// The same line again.
    pub fn copy(&self, alloc: Global) -> Result<LineBuffer, AllocError>
        ensures same { IfOk result (λ line. line ≡ self.now) }
        ensures text { telnet.IsText self.now }
    {
        Ok(LineBuffer {
            text: Vec::from_slice(alloc, self.text.as_slice())?,
        })
    }

    /// Keeps a byte of data, if it is a character and there is room for it.
    pub fn push(&mut self, byte: u8) -> Result<(), AllocError>
        ensures ok { OnOk result (self.new ≡ with_data self.old byte) }
        ensures err { OnErr result (self.new ≡ self.old) }
    {
        if is_character(byte) && self.text.len() < MAX_LINE {
            self.text.push(byte)?;
        }
        Ok(())
    }

    /// Keeps the first of these characters, as many as there is room for.
    pub fn push_all(&mut self, characters: &[u8]) -> Result<(), AllocError>
        requires { list_all datum.is_character characters.now ≡ true }
        ensures ok { OnOk result (self.new ≡ with_all self.old characters.now) }
        ensures err { OnErr result (self.new ≡ self.old) }
    {
        let room = MAX_LINE - self.text.len();
        let count = room.min(characters.len());
        self.text.extend_from_slice(&characters[..count])?;
        Ok(())
    }

    /// Drops the last character, if there is one.
    pub fn erase_last(&mut self)
        ensures { self.new ≡ without_last self.old }
    {
        let _ = self.text.pop();
    }

    /// Drops all characters.
    pub fn erase(&mut self)
        ensures { self.new ≡ [] }
    {
        self.text.clear();
    }

    /// The text of the line, which begins anew.
    pub fn finish(&mut self, alloc: Global) -> String
        ensures text { string_bytes result ≡ self.old }
        ensures rest { self.new ≡ [] }
    {
        let text = std::mem::replace(&mut self.text, Vec::new(alloc));
        String::from_utf8(text).unwrap()
    }
}
