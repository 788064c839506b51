//! Names that a program can write.
ghost use Rattle.std.specs.Prelude.{◌≡◌, ℕ, List, map};
ghost use Rattle.std.specs.List.{list_all};
ghost use Rattle.std.specs.Borrow.{Bor};
ghost use Rattle.spec_world.specs.WellFormed as spec;

/// The words that name no variable, in lower case.
const RESERVED: [&str; 35] = [
    "if",
    "else",
    "elseif",
    "endif",
    "for",
    "in",
    "endfor",
    "while",
    "endwhile",
    "break",
    "continue",
    "return",
    "fork",
    "endfork",
    "try",
    "except",
    "finally",
    "endtry",
    "any",
    "e_none",
    "e_type",
    "e_div",
    "e_perm",
    "e_propnf",
    "e_verbnf",
    "e_varnf",
    "e_invind",
    "e_recmove",
    "e_maxrec",
    "e_range",
    "e_args",
    "e_nacc",
    "e_invarg",
    "e_quota",
    "e_float",
];

fn begins_name(byte: u8) -> bool
    ensures { result ≡ spec.begins_name byte }
{
    byte == b'_' || (97 <= byte && byte <= 122)
}

fn continues_name(byte: u8) -> bool
    ensures { result ≡ spec.continues_name byte }
{
    begins_name(byte) || (48 <= byte && byte <= 57)
}

fn all_continue_name(bytes: &[u8]) -> bool
    ensures { result ≡ list_all spec.continues_name bytes.now }
{
    for byte in bytes {
        if !continues_name(*byte) {
            return false;
        }
    }
    true
}

fn is_identifier(text: &[u8]) -> bool
    ensures { result ≡ spec.is_identifier text.now }
{
    match text.split_first() {
        Some((first, rest)) => begins_name(*first) && all_continue_name(rest),
        None => false,
    }
}

fn is_among(words: &[&str], text: &str) -> bool
    ensures { result ≡ spec.has_name (map (λ (s : Bor (List ℕ)). s.now) words.now) text.now }
{
    for word in words {
        if text == *word {
            return true;
        }
    }
    false
}

/// Whether a text is a name that a program can write for a variable, in lower case: no word that is reserved.
pub fn is_variable(text: &str) -> bool
    ensures { result ≡ spec.is_variable text.now }
{
    is_identifier(text.as_bytes()) && !is_among(&RESERVED, text)
}
