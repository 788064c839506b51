//! Literal values.
use crate::reader::Reader;
use moo_value::error::MooError;
use moo_value::text::Text;

/// The number behind the greatest integer: the least one is written so.
const BEHIND_GREATEST: u64 = 2_147_483_648;

// A digit behind a number, or the greatest number of 64 bits where that is more.
fn with_digit(number: u64, digit: u8) -> u64 {
    let value = u64::from(digit.wrapping_sub(b'0'));
    number.saturating_mul(10).saturating_add(value)
}

impl<'a> Reader<'a> {
    // A run of digits as a number.
    fn take_digits(&mut self) -> u64 {
        let rest = self.rest;
        let mut number: u64 = 0;
        for i in 0..rest.len() {
            if !rest[i].is_ascii_digit() {
                self.rest = &rest[i..];
                return number;
            }
            number = with_digit(number, rest[i]);
        }
        self.rest = &[];
        number
    }

    /// Takes an integer.
    pub fn take_integer(&mut self) -> i32 {
        let number = self.take_digits();
        match i32::try_from(number) {
            Ok(number) => number,
            Err(_) => {
                if number != BEHIND_GREATEST {
                    self.refuse();
                }
                i32::MIN
            }
        }
    }

    /// Takes the number of an object.
    pub fn take_object(&mut self) -> i32 {
        let negative = self.take_exact(b'-');
        match numbered(negative, self.take_digits()) {
            Some(number) => number,
            None => {
                self.refuse();
                0
            }
        }
    }

    /// Takes the name of an error.
    pub fn take_error(&mut self) -> MooError {
        let word = self.take_word();
        for error in &MooError::ALL {
            if error.name().as_bytes() == word {
                return *error;
            }
        }
        self.refuse();
        MooError::NoError
    }

    /// Takes the characters of a text and the quotation mark behind them.
    pub fn take_text(&mut self) -> Option<Text> {
        let end = plain_end(self.rest);
        let plain = self.take_front(end);
        if self.take_exact(b'"') {
            self.text(plain)
        } else {
            self.take_escaped(plain)
        }
    }

    // The text that goes on behind its first characters.
    fn take_escaped(&mut self, plain: &[u8]) -> Option<Text> {
        let mut characters = Vec::new(self.alloc);
        let copied = characters.extend_from_slice(plain);
        self.kept(copied);
        self.unescape(&mut characters);
        self.text(&characters)
    }

    // Adds the characters that are left of a text, and takes the quotation mark behind them.
    fn unescape(&mut self, characters: &mut Vec<u8>) {
        for _ in 0..self.rest.len() {
            if self.take_exact(b'"') {
                return;
            }
            self.take_exact(b'\\');
            let byte = self.byte(0);
            self.take_front(1);
            let added = characters.push(byte);
            self.kept(added);
        }
        self.refuse();
    }
}

// The number of an object, if it is in their range.
fn numbered(negative: bool, digits: u64) -> Option<i32> {
    let Ok(number) = i64::try_from(digits) else {
        return None;
    };
    let number = if negative {
        number.wrapping_neg()
    } else {
        number
    };
    i32::try_from(number).ok()
}

// How many characters are next before a quotation mark or a backslash.
fn plain_end(rest: &[u8]) -> usize {
    for i in 0..rest.len() {
        if rest[i] == b'"' || rest[i] == b'\\' {
            return i;
        }
    }
    rest.len()
}
