//! Names of variables, functions and loops.
ghost use Rattle.std.specs.Prelude.{◌≡◌};
ghost use Rattle.std.specs.List.{list_all};
ghost use Rattle.spec_program.specs.Trees as spec;

use moo_value::text::Text;
use tokens_ahead::reserved::is_keyword;

// Each character that goes on with a name stands at its own place, and a comma at every other place.
static NAME_MAP: [u8; 256] = *b"\
    ,,,,,,,,,,,,,,,,,,,,,,,,,,,,,,,,\
    ,,,,,,,,,,,,,,,,0123456789,,,,,,\
    ,,,,,,,,,,,,,,,,,,,,,,,,,,,,,,,_\
    ,abcdefghijklmnopqrstuvwxyz,,,,,\
    ,,,,,,,,,,,,,,,,,,,,,,,,,,,,,,,,\
    ,,,,,,,,,,,,,,,,,,,,,,,,,,,,,,,,\
    ,,,,,,,,,,,,,,,,,,,,,,,,,,,,,,,,\
    ,,,,,,,,,,,,,,,,,,,,,,,,,,,,,,,,";

fn begins_name(byte: u8) -> bool
    ensures { result ≡ spec.begins_name byte }
{
    byte == b'_' || (97 <= byte && byte <= 122)
}

#[inline(always)]
fn continues_name(byte: u8) -> bool
    ensures { result ≡ spec.continues_name byte }
{
    NAME_MAP[usize::from(byte)] != b','
}

fn all_continue_name(bytes: &[u8]) -> bool
    ensures { result ≡ list_all spec.continues_name bytes.now }
{
    for byte in bytes {
        if !continues_name(*byte) {
            return false;
        }
    }
    true
}

fn is_lower_word(text: &[u8]) -> bool
    ensures { result ≡ spec.is_lower_word text.now }
{
    match text.split_first() {
        Some((first, rest)) => begins_name(*first) && all_continue_name(rest),
        None => false,
    }
}

fn is_free_word(text: &[u8]) -> bool
    ensures { result ≡ spec.is_name text.now }
{
    is_lower_word(text) && !is_keyword(text)
}

/// Whether a text is a name: a word in lower case that is no keyword.
pub fn is_name(text: &Text) -> bool
    ensures { result ≡ spec.is_name text.now }
{
    is_free_word(text.as_str().as_bytes())
}

/// Whether a text is a name, where there is one.
pub fn may_name(name: &Option<Text>) -> bool
    ensures { result ≡ spec.may_name name.now }
{
    match name {
        Some(text) => is_name(text),
        None => true,
    }
}
