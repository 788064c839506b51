//! Which words are no identifiers.

ghost use Rattle.std.specs.Prelude.{◌≡◌, IfOk};
ghost use Rattle.spec_value.specs.Datum.{same_text, fold_case};
ghost use Rattle.moo_token.specs.Tokens as spec;
ghost use Rattle.moo_token.specs.Views.{token_of};

use crate::token::{ErrorName, Keyword, Token};
use std::alloc::{AllocError, Global};

fn is(word: &[u8], reserved: &[u8]) -> bool
    ensures { result ≡ same_text word.now reserved.now }
{
    word == reserved
}

fn keyword_of(word: &[u8]) -> Option<Keyword>
    ensures { result ≡ spec.keyword_of word.now }
{
    if is(word, b"if") {
        Some(Keyword::If)
    } else if is(word, b"else") {
        Some(Keyword::Else)
    } else if is(word, b"elseif") {
        Some(Keyword::ElseIf)
    } else if is(word, b"endif") {
        Some(Keyword::EndIf)
    } else if is(word, b"for") {
        Some(Keyword::For)
    } else if is(word, b"in") {
        Some(Keyword::In)
    } else if is(word, b"endfor") {
        Some(Keyword::EndFor)
    } else if is(word, b"while") {
        Some(Keyword::While)
    } else if is(word, b"endwhile") {
        Some(Keyword::EndWhile)
    } else if is(word, b"break") {
        Some(Keyword::Break)
    } else if is(word, b"continue") {
        Some(Keyword::Continue)
    } else if is(word, b"return") {
        Some(Keyword::Return)
    } else if is(word, b"fork") {
        Some(Keyword::Fork)
    } else if is(word, b"endfork") {
        Some(Keyword::EndFork)
    } else if is(word, b"try") {
        Some(Keyword::Try)
    } else if is(word, b"except") {
        Some(Keyword::Except)
    } else if is(word, b"finally") {
        Some(Keyword::Finally)
    } else if is(word, b"endtry") {
        Some(Keyword::EndTry)
    } else if is(word, b"any") {
        Some(Keyword::Any)
    } else {
        None
    }
}

fn error_of(word: &[u8]) -> Option<ErrorName>
    ensures { result ≡ spec.error_of word.now }
{
    if is(word, b"e_none") {
        Some(ErrorName::NoError)
    } else if is(word, b"e_type") {
        Some(ErrorName::TypeMismatch)
    } else if is(word, b"e_div") {
        Some(ErrorName::ZeroDivision)
    } else if is(word, b"e_perm") {
        Some(ErrorName::PermissionDenied)
    } else if is(word, b"e_propnf") {
        Some(ErrorName::PropertyNotFound)
    } else if is(word, b"e_verbnf") {
        Some(ErrorName::VerbNotFound)
    } else if is(word, b"e_varnf") {
        Some(ErrorName::VariableNotFound)
    } else if is(word, b"e_invind") {
        Some(ErrorName::InvalidIndirection)
    } else if is(word, b"e_recmove") {
        Some(ErrorName::RecursiveMove)
    } else if is(word, b"e_maxrec") {
        Some(ErrorName::TooManyCalls)
    } else if is(word, b"e_range") {
        Some(ErrorName::RangeError)
    } else if is(word, b"e_args") {
        Some(ErrorName::WrongArgumentCount)
    } else if is(word, b"e_nacc") {
        Some(ErrorName::MoveRefused)
    } else if is(word, b"e_invarg") {
        Some(ErrorName::InvalidArgument)
    } else if is(word, b"e_quota") {
        Some(ErrorName::LimitExceeded)
    } else if is(word, b"e_float") {
        Some(ErrorName::FloatError)
    } else {
        None
    }
}

fn in_lower_case(alloc: Global, word: &[u8]) -> Result<Vec<u8>, AllocError>
    ensures { IfOk result (λ v. v.items ≡ fold_case word.now) }
{
    word.iter().map(|b| b.to_ascii_lowercase()).collect(alloc)
}

/// The token of a word.
pub fn word_token(alloc: Global, word: Vec<u8>) -> Result<Token, AllocError>
    ensures { IfOk result (λ t. token_of t ≡ spec.word_of word.items) }
{
    let folded = in_lower_case(alloc, &word)?;
    match keyword_of(&folded) {
        Some(keyword) => Ok(Token::Keyword(keyword)),
        None => match error_of(&folded) {
            Some(error) => Ok(Token::Error(error)),
            None => Ok(Token::Identifier(word)),
        },
    }
}
