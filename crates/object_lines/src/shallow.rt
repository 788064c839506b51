//! Where objects begin in a text, and which of them nest no deeper than a small stack holds.
//!
//! What reads a value calls itself for a list within a list. So a thread that has no more stack than the system gives it reads no object of which a line
//! has very many lists.
use line_fields::cut::cut_at;
use line_fields::number::natural;

// So many lists at most may begin in a line.
const LISTS: usize = 2_000;

// The greatest number of an object.
const LAST_OBJECT: u64 = 999_999;

/// Whether no line of the next object has very many lists, by its lines up to those of another object or of the tasks.
pub(crate) fn is_next_shallow(text: &[u8]) -> bool {
    let mut left = text;
    for _line in 0..text.len() {
        let Some((line, rest)) = cut_at(left, b'\n') else {
            return false;
        };
        if line.len() > LISTS && list_count(line) > LISTS {
            return false;
        }
        if begins_object(rest) || rest.starts_with(b"tasks ") {
            return true;
        }
        left = rest;
    }
    true
}

fn list_count(line: &[u8]) -> usize {
    let mut count: usize = 0;
    for byte in line {
        count = count.wrapping_add(usize::from(*byte == b'{'));
    }
    count
}

/// Whether a text begins with a line that an object may begin with. No line of code is the word and a number.
pub(crate) fn begins_object(text: &[u8]) -> bool {
    let Some(behind) = text.strip_prefix(b"object ") else {
        return false;
    };
    match cut_at(behind, b'\n') {
        Some((number, _)) => natural(number, 0, LAST_OBJECT).is_some(),
        None => false,
    }
}
