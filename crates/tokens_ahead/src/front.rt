//! What stands behind characters with which a text begins.
ghost use Rattle.std.specs.Prelude.{◌≡◌, ◌++◌, ◌∷◌, IfSome};
ghost use Rattle.spec_program.specs.Tokens as spec;
ghost use Rattle.spec_program.specs.Names as names;
ghost use Rattle.tokens_ahead.specs.Bare.{bare};
ghost use Rattle.tokens_ahead.specs.Ahead.{goes_on};

// Each character of a word stands at its own place, and a comma at every other place.
static WORD_MAP: [u8; 256] = *b"\
    ,,,,,,,,,,,,,,,,,,,,,,,,,,,,,,,,\
    ,,,,,,,,,,,,,,,,0123456789,,,,,,\
    ,ABCDEFGHIJKLMNOPQRSTUVWXYZ,,,,_\
    ,abcdefghijklmnopqrstuvwxyz,,,,,\
    ,,,,,,,,,,,,,,,,,,,,,,,,,,,,,,,,\
    ,,,,,,,,,,,,,,,,,,,,,,,,,,,,,,,,\
    ,,,,,,,,,,,,,,,,,,,,,,,,,,,,,,,,\
    ,,,,,,,,,,,,,,,,,,,,,,,,,,,,,,,,";

/// What stands behind this character.
pub fn behind_byte(text: &[u8], wanted: u8) -> Option<&[u8]>
    ensures { IfSome result (λ r. text.now ≡ wanted ∷ r.now) }
{
    match text {
        [first, behind @ ..] if *first == wanted => Some(behind),
        _ => None,
    }
}

/// What stands behind these characters.
pub fn behind<'a>(text: &'a [u8], front: &[u8]) -> Option<&'a [u8]>
    ensures { IfSome result (λ r. text.now ≡ front.now ++ r.now) }
{
    text.strip_prefix(front)
}

fn is_blank(byte: u8) -> bool
    ensures { result ≡ spec.is_blank byte }
{
    byte == b' ' || (byte == b'\t' || byte == b'\n')
}

#[tactic(auto, using(crate::proofs::Bare::blank_bare))]
fn behind_blank(text: &[u8]) -> Option<&[u8]>
    ensures { IfSome result (λ r. bare r.now ≡ bare text.now) }
{
    let (first, behind) = text.split_first()?;
    if is_blank(*first) { Some(behind) } else { None }
}

/// What stands behind all spaces, tabs and line ends: it has the same tokens.
pub fn behind_blanks(text: &[u8]) -> &[u8]
    ensures { bare result.now ≡ bare text.now }
{
    let mut rest = text;
    for _ in 0..text.len() {
        match behind_blank(rest) {
            Some(behind) => rest = behind,
            None => break,
        }
    }
    rest
}

/// A letter of either case, or an underscore.
pub fn is_letter(byte: u8) -> bool
    ensures { result ≡ names.is_letter byte }
{
    byte == b'_' || ((97 <= byte && byte <= 122) || (65 <= byte && byte <= 90))
}

/// A letter, an underscore or a digit.
#[inline(always)]
pub fn is_word_character(byte: u8) -> bool
    ensures { result ≡ names.is_word_character byte }
{
    WORD_MAP[usize::from(byte)] != b','
}

/// Whether a text begins with a character of words.
pub fn continues_word(text: &[u8]) -> bool
    ensures { result ≡ goes_on names.is_word_character text.now }
{
    match text {
        [first, ..] => is_word_character(*first),
        [] => false,
    }
}
