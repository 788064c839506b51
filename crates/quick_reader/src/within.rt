//! What stands within braces.
use tokens_ahead::front::{behind_blanks, is_word_character};

/// Whether the braces that were opened are of what a list is assigned to, by what stands in them up to the first sign that only one of both has.
pub fn is_scatter(rest: &[u8]) -> bool {
    // Whether an item is to begin.
    let mut is_fresh = true;
    for i in 0..rest.len() {
        match rest[i] {
            b'}' => return begins_value(behind_blanks(&rest[i + 1..])),
            b'?' => return is_fresh,
            b',' => is_fresh = true,
            b' ' | b'\t' | b'\n' | b'@' => {}
            byte if is_word_character(byte) => is_fresh = false,
            _ => return false,
        }
    }
    false
}

// Whether `=` is next, and no longer sign.
fn begins_value(rest: &[u8]) -> bool {
    match rest {
        [b'=', b'=' | b'>', ..] => false,
        [b'=', ..] => true,
        _ => false,
    }
}
