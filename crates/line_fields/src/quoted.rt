//! Texts from what stands between their quotes.
ghost use Rattle.std.specs.Prelude.{◌≡◌, ◌<◌, ◌≤◌, length, Some, IfOk, IfSome, IsTrue};
ghost use Rattle.std.specs.List.{position_or_len};
ghost use Rattle.spec_value.specs.Datum.{is_text, is_character};
ghost use Rattle.memchr.specs.Find.{is_byte2};
ghost use Rattle.moo_value.specs.Read.{found, IsNoLonger, FindsText};
ghost use Rattle.line_fields.specs.Quoted.{is_ordinary, ordinary_run, quote_mark};
ghost use Rattle.line_fields.specs.Said.{TellsText};

use memchr::memchr2;
use moo_value::text::Text;
use std::alloc::{AllocError, Global};
use std::str;

/// The text behind an opening quote, and what stands behind the closing one. A backslash stands before each quote and each backslash
/// of the text, and nowhere else.
pub fn front_text(alloc: Global, bytes: &[u8]) -> Result<Option<(Text, &[u8])>, AllocError>
    ensures shorter { IfOk result (λ o. IsNoLonger bytes.now o) }
    ensures finds { IfOk result (λ o. FindsText bytes.now o) }
    ensures tells { IfOk result (λ o. TellsText bytes.now o) }
{
    let (front, back) = bytes.split_at(ordinary_end(bytes));
    match quote_at_front(back) {
        Some((None, behind)) => {
            let text = plain_text(alloc, front)?;
            Ok(Some((text, behind)))
        }
        Some((Some(_), _)) => escaped_text(alloc, bytes),
        None => Ok(None),
    }
}

// The same, where a backslash stands in the text.
fn escaped_text(alloc: Global, bytes: &[u8]) -> Result<Option<(Text, &[u8])>, AllocError>
    ensures shorter { IfOk result (λ o. IsNoLonger bytes.now o) }
    ensures finds { IfOk result (λ o. FindsText bytes.now o) }
    ensures tells { IfOk result (λ o. TellsText bytes.now o) }
{
    let mut characters = Vec::new(alloc);
    let mut rest = bytes;
    'runs: loop {
        let (front, back) = rest.split_at(ordinary_end(rest));
        characters.extend_from_slice(front)?;
        match quote_at_front(back) {
            Some((None, behind)) => {
                let found = closed(alloc, &characters, behind)?;
                return Ok(found);
            }
            Some((Some(character), behind)) => {
                characters.push(character)?;
                rest = behind;
            }
            None => return Ok(None),
        }
    }
}

// The text of these characters, and what stands behind its closing quote.
fn closed<'a>(
    alloc: Global,
    characters: &[u8],
    behind: &'a [u8],
) -> Result<Option<(Text, &'a [u8])>, AllocError>
    ensures shorter { IfOk result (λ o. IsNoLonger behind.now o) }
    ensures finds { IsTrue (is_text characters.now) → IfOk result (λ o. found o ≡ Some (characters.now, behind.now)) }
    ensures tells { IfOk result (λ o. IfSome o (λ p. (p.0 ≡ characters.now) × (p.1.now ≡ behind.now))) }
{
    let text = checked_text(alloc, characters)?;
    match text {
        Some(text) => Ok(Some((text, behind))),
        None => Ok(None),
    }
}

// A quote that closes a text, or the quote or backslash behind a backslash, and what stands behind it.
fn quote_at_front(bytes: &[u8]) -> Option<(Option<u8>, &[u8])>
    ensures shorter { IfSome result (λ p. length p.1.now < length bytes.now) }
    ensures finds { found result ≡ quote_mark bytes.now }
{
    match bytes {
        [b'"', rest @ ..] => Some((None, rest)),
        [b'\\', b'"', rest @ ..] => Some((Some(b'"'), rest)),
        [b'\\', b'\\', rest @ ..] => Some((Some(b'\\'), rest)),
        _ => None,
    }
}

// How many characters stand at the front that a text has as they are.
fn ordinary_end(bytes: &[u8]) -> usize
    ensures within { result ≤ length bytes.now }
    ensures value { result ≡ ordinary_run bytes.now }
{
    let end = mark_end(bytes);
    if are_characters(&bytes[..end]) {
        end
    } else {
        run_end(bytes)
    }
}

// Where a quote or a backslash stands first, or the end.
fn mark_end(bytes: &[u8]) -> usize
    ensures within { result ≤ length bytes.now }
    ensures value { result ≡ position_or_len (is_byte2 34 92) bytes.now }
{
    match memchr2(b'"', b'\\', bytes) {
        Some(end) => end,
        None => bytes.len(),
    }
}

fn are_characters(bytes: &[u8]) -> bool
    ensures { result ≡ is_text bytes.now }
{
    let mut all = true;
    // All bytes are looked at, which is less work than to stop at one.
    for byte in bytes {
        all = all && is_character_byte(*byte);
    }
    all
}

fn is_character_byte(byte: u8) -> bool
    ensures { result ≡ is_character byte }
{
    byte == b'\t' || (b' ' <= byte && byte <= b'~')
}

fn run_end(bytes: &[u8]) -> usize
    ensures within { result ≤ length bytes.now }
    ensures value { result ≡ ordinary_run bytes.now }
{
    let mut count = 0;
    for byte in bytes {
        if !is_ordinary_byte(*byte) {
            return count;
        }
        count += 1;
    }
    count
}

fn is_ordinary_byte(byte: u8) -> bool
    ensures { result ≡ is_ordinary byte }
{
    is_character_byte(byte) && !(byte == b'"' || byte == b'\\')
}

fn plain_text(alloc: Global, characters: &[u8]) -> Result<Text, AllocError>
    requires { IsTrue (is_text characters.now) }
    ensures { IfOk result (λ t. t ≡ characters.now) }
{
    match str::from_utf8(characters) {
        Ok(text) => Text::from_str(alloc, text),
        Err(_) => Text::from_str(alloc, ""),
    }
}

// The text of these characters, if a text may have them.
fn checked_text(alloc: Global, characters: &[u8]) -> Result<Option<Text>, AllocError>
    ensures finds { IsTrue (is_text characters.now) → IfOk result (λ o. o ≡ Some characters.now) }
    ensures tells { IfOk result (λ o. IfSome o (λ t. t ≡ characters.now)) }
{
    let Ok(text) = str::from_utf8(characters) else {
        return Ok(None);
    };
    let mut owned = String::new(alloc);
    owned.push_str(text)?;
    Text::new(owned)
}
