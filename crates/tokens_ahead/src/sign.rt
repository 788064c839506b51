//! Signs.
ghost use Rattle.std.specs.Prelude.{◌≡◌, ◌++◌, ◌∷◌, [], Option, Some, None, IfSome};
ghost use Rattle.spec_program.specs.Tokens as spec;
ghost use Rattle.spec_spelling.proofs.Pieces.{is_second};
ghost use Rattle.moo_token.specs.Tokens.{spelling};
ghost use Rattle.moo_token.specs.Meaning.{sign_meant};
ghost use Rattle.tokens_ahead.specs.Bare.{bare};
ghost use Rattle.tokens_ahead.specs.Ahead.{goes_on, is_short as is_short_sign};

use crate::front::{behind_blanks, behind_byte};
use moo_token::token::Sign;

// The characters of a sign.
#[inline]
fn behind_spelling(text: &[u8], wanted: Sign) -> Option<&[u8]>
    ensures { IfSome result (λ r. text.now ≡ spelling wanted ++ r.now) }
{
    match wanted {
        Sign::OpenParenthesis => behind_byte(text, b'('),
        Sign::CloseParenthesis => behind_byte(text, b')'),
        Sign::OpenBracket => behind_byte(text, b'['),
        Sign::CloseBracket => behind_byte(text, b']'),
        Sign::OpenBrace => behind_byte(text, b'{'),
        Sign::CloseBrace => behind_byte(text, b'}'),
        Sign::Semicolon => behind_byte(text, b';'),
        Sign::Comma => behind_byte(text, b','),
        Sign::Colon => behind_byte(text, b':'),
        Sign::Dot => behind_byte(text, b'.'),
        Sign::Assign => behind_byte(text, b'='),
        Sign::Not => behind_byte(text, b'!'),
        Sign::Plus => behind_byte(text, b'+'),
        Sign::Minus => behind_byte(text, b'-'),
        Sign::Times => behind_byte(text, b'*'),
        Sign::Slash => behind_byte(text, b'/'),
        Sign::Percent => behind_byte(text, b'%'),
        Sign::Caret => behind_byte(text, b'^'),
        Sign::Less => behind_byte(text, b'<'),
        Sign::Greater => behind_byte(text, b'>'),
        Sign::Bar => behind_byte(text, b'|'),
        Sign::Question => behind_byte(text, b'?'),
        Sign::Dollar => behind_byte(text, b'$'),
        Sign::At => behind_byte(text, b'@'),
        Sign::Backquote => behind_byte(text, b'`'),
        Sign::Quote => behind_byte(text, b'\''),
        Sign::DoubleDot => behind_two(text, b'.', b'.'),
        Sign::Equal => behind_two(text, b'=', b'='),
        Sign::Arrow => behind_two(text, b'=', b'>'),
        Sign::Differs => behind_two(text, b'!', b'='),
        Sign::LessOrEqual => behind_two(text, b'<', b'='),
        Sign::GreaterOrEqual => behind_two(text, b'>', b'='),
        Sign::And => behind_two(text, b'&', b'&'),
        Sign::Or => behind_two(text, b'|', b'|'),
    }
}

#[inline]
fn behind_two(text: &[u8], first: u8, second: u8) -> Option<&[u8]>
    ensures { IfSome result (λ r. text.now ≡ first ∷ second ∷ r.now) }
{
    let rest = behind_byte(text, first)?;
    behind_byte(rest, second)
}

// Whether a longer sign begins with it.
#[inline]
fn is_short(sign: Sign) -> bool
    ensures { result ≡ is_short_sign sign }
{
    match sign {
        Sign::Dot | Sign::Assign | Sign::Not | Sign::Less | Sign::Greater | Sign::Bar => true,
        _ => false,
    }
}

// Whether a text begins with the second character of a sign.
#[inline]
fn continues_sign(text: &[u8]) -> bool
    ensures { result ≡ goes_on is_second text.now }
{
    match text {
        [first, ..] => *first == b'.' || (*first == b'=' || (*first == b'>' || *first == b'|')),
        [] => false,
    }
}

/// What stands behind this sign, if it is the next token.
#[inline]
#[tactic(auto, using(crate::proofs::Taken::sign_taken))]
pub fn behind_sign(text: &[u8], wanted: Sign) -> Option<&[u8]>
    ensures { IfSome result (λ r. bare text.now ≡ spec.sign (sign_meant wanted) ∷ bare r.now) }
{
    let text = behind_blanks(text);
    let rest = behind_spelling(text, wanted)?;
    if is_short(wanted) && continues_sign(rest) {
        return None;
    }
    Some(rest)
}
