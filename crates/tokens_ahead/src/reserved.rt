//! The words that name nothing.
ghost use Rattle.std.specs.Prelude.{◌≡◌, ◌∷◌, ℕ, List, map};
ghost use Rattle.std.specs.List.{list_all, list_any};
ghost use Rattle.std.specs.Borrow.{Bor};
ghost use Rattle.spec_value.specs.Datum.{same_text, fold_case};
ghost use Rattle.spec_program.specs.Names as names;

use crate::front::{is_letter, is_word_character};

const OF_TWO: [&str; 2] = ["if", "in"];

const OF_THREE: [&str; 3] = ["for", "try", "any"];

const OF_FOUR: [&str; 2] = ["else", "fork"];

const OF_FIVE: [&str; 4] = ["endif", "while", "break", "e_div"];

const OF_SIX: [&str; 10] = [
    "elseif", "endfor", "return", "except", "endtry", "e_none", "e_type", "e_perm", "e_args",
    "e_nacc",
];

const OF_SEVEN: [&str; 6] = [
    "endfork", "finally", "e_varnf", "e_range", "e_quota", "e_float",
];

const OF_EIGHT: [&str; 7] = [
    "endwhile", "continue", "e_propnf", "e_verbnf", "e_invind", "e_maxrec", "e_invarg",
];

const OF_NINE: [&str; 1] = ["e_recmove"];

/// Whether a word is this one, the case of its letters ignored.
#[inline(always)]
pub fn is(word: &[u8], reserved: &[u8]) -> bool
    ensures { result ≡ same_text (fold_case word.now) reserved.now }
{
    if word.len() != reserved.len() {
        return false;
    }
    for i in 0..word.len() {
        if word[i].to_ascii_lowercase() != reserved[i] {
            return false;
        }
    }
    true
}

// Whether a first letter in lower case and what is behind it, in whatever case, are this word.
#[inline(always)]
fn are(first: u8, rest: &[u8], reserved: &[u8]) -> bool
    ensures { result ≡ same_text (first ∷ fold_case rest.now) reserved.now }
{
    match reserved {
        [head, tail @ ..] => first == *head && is(rest, tail),
        [] => false,
    }
}

#[inline(always)]
fn are_among(words: &[&str], first: u8, rest: &[u8]) -> bool
    ensures { result ≡ list_any (same_text (first ∷ fold_case rest.now)) (map (λ (s : Bor (List ℕ)). s.now) words.now) }
{
    for reserved in words {
        if are(first, rest, reserved.as_bytes()) {
            return true;
        }
    }
    false
}

/// Whether a word names nothing, the case of its letters ignored. They are told apart by their lengths and their first letters.
#[tactic(auto, using(crate::proofs::Lengths::of_two, crate::proofs::Lengths::of_three, crate::proofs::Lengths::of_four, crate::proofs::Lengths::of_five, crate::proofs::Lengths::of_six, crate::proofs::Lengths::of_seven, crate::proofs::Lengths::of_eight, crate::proofs::Lengths::of_nine, crate::proofs::Lengths::of_short, crate::proofs::Lengths::of_long))]
pub fn is_keyword(word: &[u8]) -> bool
    ensures { result ≡ names.is_keyword word.now }
{
    let length = word.len();
    if length < 2 || length > 9 {
        return false;
    }
    let Some((first, rest)) = word.split_first() else {
        return false;
    };
    let first = first.to_ascii_lowercase();
    match length {
        2 => are_among(&OF_TWO, first, rest),
        3 => are_among(&OF_THREE, first, rest),
        4 => are_among(&OF_FOUR, first, rest),
        5 => are_among(&OF_FIVE, first, rest),
        6 => are_among(&OF_SIX, first, rest),
        7 => are_among(&OF_SEVEN, first, rest),
        8 => are_among(&OF_EIGHT, first, rest),
        _ => are_among(&OF_NINE, first, rest),
    }
}

fn are_word_characters(bytes: &[u8]) -> bool
    ensures { result ≡ list_all names.is_word_character bytes.now }
{
    for byte in bytes {
        if !is_word_character(*byte) {
            return false;
        }
    }
    true
}

fn is_word(text: &[u8]) -> bool
    ensures { result ≡ names.is_word text.now }
{
    match text.split_first() {
        Some((first, rest)) => is_letter(*first) && are_word_characters(rest),
        None => false,
    }
}

/// Whether a text may name something: a word that is no keyword.
pub fn is_identifier(text: &[u8]) -> bool
    ensures { result ≡ names.is_identifier text.now }
{
    is_word(text) && !is_keyword(text)
}
