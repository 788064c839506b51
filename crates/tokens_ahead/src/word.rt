//! Names and keywords.
ghost use Rattle.std.specs.Prelude.{◌≡◌, ◌++◌, ◌∷◌, length, take, drop, IfSome, IsTrue};
ghost use Rattle.std.specs.List.{list_all};
ghost use Rattle.spec_value.specs.Datum.{fold_case};
ghost use Rattle.spec_program.specs.Names as names;
ghost use Rattle.spec_program.specs.Names.{is_identifier};
ghost use Rattle.spec_program.specs.Tokens as spec;
ghost use Rattle.moo_token.specs.Meaning.{keyword_meant};
ghost use Rattle.tokens_ahead.specs.Bare.{bare};
ghost use Rattle.tokens_ahead.specs.Ahead.{goes_on, lower};

use crate::front::{
    behind, behind_blanks, behind_byte, continues_word, is_letter, is_word_character,
};
use crate::reserved::{is, is_keyword};
use moo_token::token::Keyword;

/// What stands behind this word, if it is the next token.
#[tactic(auto, using(crate::proofs::Taken::name_taken))]
pub fn behind_word<'a>(text: &'a [u8], word: &[u8]) -> Option<&'a [u8]>
    requires { IsTrue (is_identifier word.now) }
    ensures { IfSome result (λ r. bare text.now ≡ spec.word word.now ∷ bare r.now) }
{
    let text = behind_blanks(text);
    let rest = behind(text, word)?;
    if continues_word(rest) {
        return None;
    }
    Some(rest)
}

// Whether a word begins with a letter.
#[inline(always)]
fn has_letter(word: &[u8]) -> bool
    ensures { result ≡ goes_on names.is_letter word.now }
{
    match word {
        [first, ..] => is_letter(*first),
        [] => false,
    }
}

// What stands behind these letters and digits.
#[inline(always)]
fn behind_letters<'a>(text: &'a [u8], word: &[u8]) -> Option<&'a [u8]>
    ensures front { IfSome result (λ r. text.now ≡ word.now ++ r.now) }
    ensures letters { IfSome result (λ r. IsTrue (list_all names.is_word_character word.now)) }
{
    let mut rest = text;
    for byte in word {
        match behind_letter(rest, *byte) {
            Some(behind) => rest = behind,
            None => return None,
        }
    }
    Some(rest)
}

#[inline(always)]
fn behind_letter(text: &[u8], letter: u8) -> Option<&[u8]>
    ensures front { IfSome result (λ r. text.now ≡ letter ∷ r.now) }
    ensures letter { IfSome result (λ r. IsTrue (names.is_word_character letter)) }
{
    if is_word_character(letter) {
        behind_byte(text, letter)
    } else {
        None
    }
}

/// What stands behind this name, if it may be one and is the next token.
#[tactic(auto, using(crate::proofs::Taken::letters_taken))]
pub fn behind_name<'a>(text: &'a [u8], name: &[u8]) -> Option<&'a [u8]>
    ensures { IfSome result (λ r. bare text.now ≡ spec.word name.now ∷ bare r.now) }
{
    if !has_letter(name) {
        return None;
    }
    if is_keyword(name) {
        return None;
    }
    let text = behind_blanks(text);
    let rest = behind_letters(text, name)?;
    if continues_word(rest) {
        return None;
    }
    Some(rest)
}

// A keyword in lower case.
#[inline]
fn spelling(keyword: Keyword) -> &'static [u8]
    ensures { result.now ≡ lower keyword }
{
    match keyword {
        Keyword::If => b"if",
        Keyword::Else => b"else",
        Keyword::ElseIf => b"elseif",
        Keyword::EndIf => b"endif",
        Keyword::For => b"for",
        Keyword::In => b"in",
        Keyword::EndFor => b"endfor",
        Keyword::While => b"while",
        Keyword::EndWhile => b"endwhile",
        Keyword::Break => b"break",
        Keyword::Continue => b"continue",
        Keyword::Return => b"return",
        Keyword::Fork => b"fork",
        Keyword::EndFork => b"endfork",
        Keyword::Try => b"try",
        Keyword::Except => b"except",
        Keyword::Finally => b"finally",
        Keyword::EndTry => b"endtry",
        Keyword::Any => b"any",
    }
}

// What stands behind this word, the case of its letters ignored.
fn behind_folded<'a>(text: &'a [u8], word: &[u8]) -> Option<&'a [u8]>
    ensures word { IfSome result (λ r. fold_case (take (length word.now) text.now) ≡ word.now) }
    ensures rest { IfSome result (λ r. r.now ≡ drop (length word.now) text.now) }
{
    if text.len() < word.len() {
        return None;
    }
    let (front, rest) = text.split_at(word.len());
    if is(front, word) { Some(rest) } else { None }
}

/// What stands behind this keyword, if it is the next token, in whatever case.
#[inline]
pub fn behind_keyword(text: &[u8], wanted: Keyword) -> Option<&[u8]>
    ensures { IfSome result (λ r. bare text.now ≡ spec.keyword (keyword_meant wanted) ∷ bare r.now) }
{
    let text = behind_blanks(text);
    let rest = behind_folded(text, spelling(wanted))?;
    if continues_word(rest) {
        return None;
    }
    Some(rest)
}
