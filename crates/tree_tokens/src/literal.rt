//! Literals, names and operators.
ghost use Rattle.std.specs.Prelude.{◌≡◌, [], ◌∷◌, ◌++◌, IfSome, IsTrue};
ghost use Rattle.spec_value.specs.Datum as datum;
ghost use Rattle.spec_value.specs.Datum.{is_text};
ghost use Rattle.spec_program.specs.Names.{is_identifier};
ghost use Rattle.spec_program.specs.Tokens as spec;
ghost use Rattle.spec_program.specs.CanonicalTokens.{literal_tokens, unary_token, binary_token};
ghost use Rattle.spec_spelling.specs.ProgramTokens.{name_before};
ghost use Rattle.moo_value.specs.Operators.{unary_of, binary_of};
ghost use Rattle.tokens_ahead.specs.Bare.{bare};

use moo_token::token::{Keyword, Sign};
use moo_value::operator::{BinaryOperator, UnaryOperator};
use moo_value::text::Text;
use moo_value::value::{Shown, Value};
use tokens_ahead::literal::{
    behind_error, behind_integer, behind_negative_object, behind_object, behind_string,
};
use tokens_ahead::sign::behind_sign;
use tokens_ahead::word::{behind_keyword, behind_name};

/// What stands behind a literal.
pub fn behind_literal<'a>(text: &'a [u8], value: &Value) -> Option<&'a [u8]>
    ensures { IfSome result (λ r. bare text.now ≡ literal_tokens value.now ++ bare r.now) }
{
    value.know();
    match value.shown() {
        Shown::Integer(number) => behind_number(text, number),
        Shown::Object(number) => behind_object_number(text, number),
        Shown::Text(characters) => behind_string(text, characters.as_bytes()),
        Shown::Error(error) => behind_error(text, error),
        Shown::List(_) => Some(text),
    }
}

// No token is a number below 0: it is written as that above.
fn behind_number(text: &[u8], number: i32) -> Option<&[u8]>
    ensures { IfSome result (λ r. bare text.now ≡ literal_tokens (datum.integer number) ++ bare r.now) }
{
    behind_integer(text, number.unsigned_abs())
}

fn behind_object_number(text: &[u8], number: i32) -> Option<&[u8]>
    ensures { IfSome result (λ r. bare text.now ≡ literal_tokens (datum.object number) ++ bare r.now) }
{
    if number < 0 {
        behind_negative_object(text, number.unsigned_abs())
    } else {
        behind_object(text, number.unsigned_abs())
    }
}

/// What stands behind a name.
pub fn behind_text<'a>(text: &'a [u8], name: &Text) -> Option<&'a [u8]>
    ensures { IfSome result (λ r. bare text.now ≡ spec.word name.now ∷ bare r.now) }
{
    behind_name(text, name.as_str().as_bytes())
}

/// What stands behind a name, where there is one.
pub fn behind_optional_name<'a>(text: &'a [u8], name: &Option<Text>) -> Option<&'a [u8]>
    ensures { IfSome result (λ r. bare text.now ≡ name_before name.now ++ bare r.now) }
{
    match name {
        Some(name) => behind_text(text, name),
        None => Some(text),
    }
}

/// What stands behind an operator before its operand.
pub fn behind_unary(text: &[u8], operator: UnaryOperator) -> Option<&[u8]>
    ensures { IfSome result (λ r. bare text.now ≡ unary_token (unary_of operator) ∷ bare r.now) }
{
    match operator {
        UnaryOperator::Negation => behind_sign(text, Sign::Minus),
        UnaryOperator::NotTrue => behind_sign(text, Sign::Not),
    }
}

/// What stands behind an operator between its operands.
pub fn behind_binary(text: &[u8], operator: BinaryOperator) -> Option<&[u8]>
    ensures { IfSome result (λ r. bare text.now ≡ binary_token (binary_of operator) ∷ bare r.now) }
{
    match operator {
        BinaryOperator::Plus => behind_sign(text, Sign::Plus),
        BinaryOperator::Minus => behind_sign(text, Sign::Minus),
        BinaryOperator::Times => behind_sign(text, Sign::Times),
        BinaryOperator::DividedBy => behind_sign(text, Sign::Slash),
        BinaryOperator::RemainderBy => behind_sign(text, Sign::Percent),
        BinaryOperator::ToThe => behind_sign(text, Sign::Caret),
        BinaryOperator::Equals => behind_sign(text, Sign::Equal),
        BinaryOperator::Differs => behind_sign(text, Sign::Differs),
        BinaryOperator::Less => behind_sign(text, Sign::Less),
        BinaryOperator::LessOrEqual => behind_sign(text, Sign::LessOrEqual),
        BinaryOperator::Greater => behind_sign(text, Sign::Greater),
        BinaryOperator::GreaterOrEqual => behind_sign(text, Sign::GreaterOrEqual),
        BinaryOperator::IsIn => behind_keyword(text, Keyword::In),
    }
}
