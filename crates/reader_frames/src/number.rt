//! Signs and keywords by their numbers.

ghost use Rattle.std.specs.Prelude.{◌≡◌};
ghost use Rattle.spec_program.specs.Reading as meant;
ghost use Rattle.moo_token.specs.Meaning.{sign_meant, keyword_meant, token_meant};
ghost use Rattle.moo_token.specs.Views.{token_of};

use moo_token::token::{Keyword, Sign, Token};

fn sign_number(sign: Sign) -> u8
    ensures { result ≡ meant.sign_number (sign_meant sign) }
{
    match sign {
        Sign::OpenParenthesis => 0,
        Sign::CloseParenthesis => 1,
        Sign::OpenBracket => 2,
        Sign::CloseBracket => 3,
        Sign::OpenBrace => 4,
        Sign::CloseBrace => 5,
        Sign::Semicolon => 6,
        Sign::Comma => 7,
        Sign::Colon => 8,
        Sign::Dot => 9,
        Sign::DoubleDot => 10,
        Sign::Assign => 11,
        Sign::Equal => 12,
        Sign::Arrow => 13,
        Sign::Not => 14,
        Sign::Differs => 15,
        Sign::Plus => 16,
        Sign::Minus => 17,
        Sign::Times => 18,
        Sign::Slash => 19,
        Sign::Percent => 20,
        Sign::Caret => 21,
        Sign::Less => 22,
        Sign::LessOrEqual => 23,
        Sign::Greater => 24,
        Sign::GreaterOrEqual => 25,
        Sign::And => 26,
        Sign::Or => 27,
        Sign::Bar => 28,
        Sign::Question => 29,
        Sign::Dollar => 30,
        Sign::At => 31,
        Sign::Backquote => 32,
        Sign::Quote => 33,
    }
}

fn keyword_number(keyword: Keyword) -> u8
    ensures { result ≡ meant.keyword_number (keyword_meant keyword) }
{
    match keyword {
        Keyword::If => 0,
        Keyword::Else => 1,
        Keyword::ElseIf => 2,
        Keyword::EndIf => 3,
        Keyword::For => 4,
        Keyword::In => 5,
        Keyword::EndFor => 6,
        Keyword::While => 7,
        Keyword::EndWhile => 8,
        Keyword::Break => 9,
        Keyword::Continue => 10,
        Keyword::Return => 11,
        Keyword::Fork => 12,
        Keyword::EndFork => 13,
        Keyword::Try => 14,
        Keyword::Except => 15,
        Keyword::Finally => 16,
        Keyword::EndTry => 17,
        Keyword::Any => 18,
    }
}

/// Whether a token is this sign.
pub fn is_sign(sign: Sign, token: &Token) -> bool
    ensures { result ≡ meant.is_sign (sign_meant sign) (token_meant (token_of token.now)) }
{
    match token {
        Token::Sign(other) => sign_number(sign) == sign_number(*other),
        _ => false,
    }
}

/// Whether a token is this word.
pub fn is_keyword(keyword: Keyword, token: &Token) -> bool
    ensures { result ≡ meant.is_keyword (keyword_meant keyword) (token_meant (token_of token.now)) }
{
    match token {
        Token::Keyword(other) => keyword_number(keyword) == keyword_number(*other),
        _ => false,
    }
}
