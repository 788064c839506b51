//! Signs.
use crate::reader::Reader;
use tokens_ahead::front::{behind_blanks, continues_word};
use tokens_ahead::reserved::is;

impl<'a> Reader<'a> {
    /// Passes over spaces, tabs and line ends.
    pub fn skip_blanks(&mut self) {
        self.rest = behind_blanks(self.rest);
    }

    /// The byte that is next, or behind so many others: 0, which no program has, where the text ends before it.
    pub fn byte(&self, at: usize) -> u8 {
        match self.rest.get(at) {
            Some(byte) => *byte,
            None => 0,
        }
    }

    /// Takes so many bytes, or none where fewer are left.
    pub fn take_front(&mut self, count: usize) -> &'a [u8] {
        let rest = self.rest;
        if count > rest.len() {
            return &[];
        }
        let (front, behind) = rest.split_at(count);
        self.rest = behind;
        front
    }

    /// Takes a byte, if it is next.
    pub fn take_exact(&mut self, wanted: u8) -> bool {
        match self.rest {
            [first, behind @ ..] if *first == wanted => {
                self.rest = behind;
                true
            }
            _ => false,
        }
    }

    /// Takes a sign of one byte behind blanks, if it is next.
    pub fn take_byte(&mut self, wanted: u8) -> bool {
        self.skip_blanks();
        self.take_exact(wanted)
    }

    /// Takes a sign of one byte behind blanks, if it is next and no longer sign with this second byte is.
    pub fn take_alone(&mut self, wanted: u8, second: u8) -> bool {
        self.skip_blanks();
        self.byte(1) != second && self.take_exact(wanted)
    }

    /// Takes a sign of two bytes behind blanks, if it is next.
    pub fn take_two(&mut self, wanted: u8, second: u8) -> bool {
        self.skip_blanks();
        self.byte(1) == second && (self.take_exact(wanted) && self.take_exact(second))
    }

    /// Takes a word in lower case or another behind blanks, if it is next.
    pub fn take_keyword(&mut self, wanted: &[u8]) -> bool {
        self.skip_blanks();
        let rest = self.rest;
        if wanted.len() > rest.len() {
            return false;
        }
        let (front, behind) = rest.split_at(wanted.len());
        if continues_word(behind) || !is(front, wanted) {
            return false;
        }
        self.rest = behind;
        true
    }

    /// Takes a sign of one byte that has to be next.
    pub fn expect_byte(&mut self, wanted: u8) {
        if !self.take_byte(wanted) {
            self.refuse();
        }
    }

    /// Takes a sign of one byte that has to be next, and no longer one with this second byte.
    pub fn expect_alone(&mut self, wanted: u8, second: u8) {
        if !self.take_alone(wanted, second) {
            self.refuse();
        }
    }

    /// Takes a sign of two bytes that has to be next.
    pub fn expect_two(&mut self, wanted: u8, second: u8) {
        if !self.take_two(wanted, second) {
            self.refuse();
        }
    }

    /// Takes a word that has to be next.
    pub fn expect_keyword(&mut self, wanted: &[u8]) {
        if !self.take_keyword(wanted) {
            self.refuse();
        }
    }
}
