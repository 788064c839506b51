//! Words and texts.
ghost use Rattle.std.specs.Prelude.{◌≡◌};
ghost use Rattle.spec_value.specs.Datum.{is_text, is_character as is_character_of};

use crate::reader::Reader;
use moo_value::text::Text;
use std::alloc::AllocError;
use std::str;
use tokens_ahead::front::is_word_character;

fn is_character(byte: u8) -> bool
    ensures { result ≡ is_character_of byte }
{
    byte == b'\t' || (32 <= byte && byte <= 126)
}

// Whether each byte is a character of texts.
fn are_characters(bytes: &[u8]) -> bool
    ensures { result ≡ is_text bytes.now }
{
    for byte in bytes {
        if !is_character(*byte) {
            return false;
        }
    }
    true
}

// How many letters and digits are next.
fn word_end(rest: &[u8]) -> usize {
    for i in 0..rest.len() {
        if !is_word_character(rest[i]) {
            return i;
        }
    }
    rest.len()
}

/// The letters and digits that are next.
pub fn next_word<'a>(rest: &'a [u8]) -> &'a [u8] {
    match rest.get(..word_end(rest)) {
        Some(word) => word,
        None => &[],
    }
}

impl<'a> Reader<'a> {
    /// The text of these characters.
    pub fn text(&mut self, characters: &[u8]) -> Option<Text> {
        if are_characters(characters) {
            if let Ok(characters) = str::from_utf8(characters) {
                let text = Text::from_str(self.alloc, characters);
                return self.kept(text);
            }
        }
        self.refuse();
        None
    }

    /// The name that a word is. Those that come again share their characters.
    pub fn name_text(&mut self, word: &[u8]) -> Option<Text> {
        match self.names.find(word) {
            Some(name) => {
                let name: Result<Text, AllocError> = name.clone();
                self.kept(name)
            }
            None => self.new_name(word),
        }
    }

    fn new_name(&mut self, word: &[u8]) -> Option<Text> {
        let name = self.text(word)?;
        let copy: Result<Text, AllocError> = name.clone();
        if let Ok(copy) = copy {
            self.names.keep(copy);
        }
        Some(name)
    }

    /// Takes the letters and digits that are next.
    pub fn take_word(&mut self) -> &'a [u8] {
        let end = word_end(self.rest);
        self.take_front(end)
    }

    /// Takes the word that is next, behind blanks.
    pub fn expect_word(&mut self) -> &'a [u8] {
        self.skip_blanks();
        let word = self.take_word();
        if word.is_empty() {
            self.refuse();
        }
        word
    }

    /// Takes the name before a sign, if there is one, and the sign.
    pub fn take_name_before(&mut self, sign: u8) -> Option<&'a [u8]> {
        if self.take_byte(sign) {
            return None;
        }
        let name = self.expect_word();
        self.expect_byte(sign);
        Some(name)
    }
}
