//! What stands in a text behind the tokens of an expression's canonical spelling.
ghost use Rattle.std.specs.Prelude.{◌≡◌, [], ◌∷◌, ◌++◌, IfSome, IsTrue};
ghost use Rattle.spec_program.specs.Tokens as spec;
ghost use Rattle.spec_program.specs.Spelling.{level as level_of, is_system as is_system_of, plain_name as plain_name_of};
ghost use Rattle.spec_program.specs.CanonicalTokens as canonical;
ghost use Rattle.moo_tree.specs.ExpressionView.{arguments_of, codes_of, fallback_of, items_of};
ghost use Rattle.moo_token.specs.Meaning.{sign_meant};
ghost use Rattle.tokens_ahead.specs.Bare.{bare};
ghost use Rattle.tree_tokens.specs.Parts.{one_argument, one_item};

use crate::literal::{behind_binary, behind_literal, behind_text, behind_unary};
use moo_printer::level::{left_level, level, right_level};
use moo_printer::name::{is_system, plain_name};
use moo_token::token::{Keyword, Sign};
use moo_tree::expression::{
    Argument, Codes, Expression, ExpressionNode, Fallback, Item, Target, TargetNode,
};
use tokens_ahead::sign::behind_sign;
use tokens_ahead::word::{behind_keyword, behind_word};

/// What stands behind an expression.
#[cycle(ahead)]
pub fn behind_expression<'a>(text: &'a [u8], expression: &Expression) -> Option<&'a [u8]>
    ensures { IfSome result (λ r. bare text.now ≡ canonical.expression_tokens expression.now ++ bare r.now) }
{
    match &expression.node {
        ExpressionNode::Literal(value) => behind_literal(text, value),
        ExpressionNode::Variable(name) => behind_text(text, name),
        _ => behind_compound(text, expression),
    }
}

// What stands behind an expression that is no literal and no variable.
#[cycle(ahead)]
fn behind_compound<'a>(text: &'a [u8], expression: &Expression) -> Option<&'a [u8]>
    ensures { IfSome result (λ r. bare text.now ≡ canonical.expression_tokens expression.now ++ bare r.now) }
{
    match &expression.node {
        ExpressionNode::Literal(_) => None,
        ExpressionNode::Variable(_) => None,
        ExpressionNode::OwnLength => behind_sign(text, Sign::Dollar),
        ExpressionNode::Unary(operator, operand) => {
            let rest = behind_unary(text, *operator)?;
            behind_at(rest, 7, operand)
        }
        ExpressionNode::Binary(operator, left, right) => {
            let sign = behind_at(text, left_level(*operator), left)?;
            let rest = behind_binary(sign, *operator)?;
            behind_at(rest, right_level(*operator), right)
        }
        ExpressionNode::Both(left, right) => {
            let sign = behind_at(text, 2, left)?;
            let rest = behind_sign(sign, Sign::And)?;
            behind_at(rest, 3, right)
        }
        ExpressionNode::Either(left, right) => {
            let sign = behind_at(text, 2, left)?;
            let rest = behind_sign(sign, Sign::Or)?;
            behind_at(rest, 3, right)
        }
        ExpressionNode::Conditional(condition, value, other) => {
            let question = behind_at(text, 2, condition)?;
            let first = behind_sign(question, Sign::Question)?;
            let bar = behind_expression(first, value)?;
            let second = behind_sign(bar, Sign::Bar)?;
            behind_at(second, 1, other)
        }
        ExpressionNode::List(items) => {
            let open = behind_sign(text, Sign::OpenBrace)?;
            let close = behind_arguments(open, items)?;
            behind_sign(close, Sign::CloseBrace)
        }
        ExpressionNode::Call(function, arguments) => {
            let open = behind_text(text, function)?;
            behind_parentheses(open, arguments)
        }
        ExpressionNode::Property(object, name) => behind_dotted(text, Sign::Dot, object, name),
        ExpressionNode::VerbCall(object, name, arguments) => {
            let open = behind_dotted(text, Sign::Colon, object, name)?;
            behind_parentheses(open, arguments)
        }
        ExpressionNode::Index(base, index) => {
            let open = behind_at(text, 8, base)?;
            behind_index(open, index)
        }
        ExpressionNode::Range(base, first, last) => {
            let open = behind_at(text, 8, base)?;
            behind_range(open, first, last)
        }
        ExpressionNode::Catch(body, codes, fallback) => {
            behind_catch(text, body, codes, fallback)
        }
        ExpressionNode::Assignment(target, value) => {
            let sign = behind_target(text, target)?;
            let rest = behind_sign(sign, Sign::Assign)?;
            behind_expression(rest, value)
        }
        ExpressionNode::Scatter(items, value) => {
            let open = behind_sign(text, Sign::OpenBrace)?;
            let close = behind_items(open, items)?;
            let sign = behind_sign(close, Sign::CloseBrace)?;
            let rest = behind_sign(sign, Sign::Assign)?;
            behind_expression(rest, value)
        }
    }
}

// In parentheses where it binds less tightly than its place wants.
#[cycle(ahead)]
fn behind_at<'a>(text: &'a [u8], wanted: u8, expression: &Expression) -> Option<&'a [u8]>
    ensures { IfSome result (λ r. bare text.now
        ≡ canonical.at_level wanted (level_of expression.now) (canonical.expression_tokens expression.now) ++ bare r.now) }
{
    if wanted <= level(expression) {
        return behind_expression(text, expression);
    }
    behind_group(text, expression)
}

#[cycle(ahead)]
fn behind_group<'a>(text: &'a [u8], expression: &Expression) -> Option<&'a [u8]>
    ensures { IfSome result (λ r. bare text.now ≡ canonical.in_parentheses (canonical.expression_tokens expression.now) ++ bare r.now) }
{
    let open = behind_sign(text, Sign::OpenParenthesis)?;
    let close = behind_expression(open, expression)?;
    behind_sign(close, Sign::CloseParenthesis)
}

#[cycle(ahead)]
fn behind_index<'a>(text: &'a [u8], index: &Expression) -> Option<&'a [u8]>
    ensures { IfSome result (λ r. bare text.now
        ≡ canonical.between spec.open_bracket (canonical.expression_tokens index.now) spec.close_bracket ++ bare r.now) }
{
    let open = behind_sign(text, Sign::OpenBracket)?;
    let close = behind_expression(open, index)?;
    behind_sign(close, Sign::CloseBracket)
}

/// What stands behind two expressions in brackets, with two dots between them.
#[cycle(ahead)]
pub fn behind_range<'a>(text: &'a [u8], first: &Expression, last: &Expression) -> Option<&'a [u8]>
    ensures { IfSome result (λ r. bare text.now ≡ canonical.between spec.open_bracket (canonical.expression_tokens first.now
        ++ (spec.sign spec.double_dot ∷ canonical.expression_tokens last.now)) spec.close_bracket ++ bare r.now) }
{
    let open = behind_sign(text, Sign::OpenBracket)?;
    let dots = behind_expression(open, first)?;
    let rest = behind_sign(dots, Sign::DoubleDot)?;
    let close = behind_expression(rest, last)?;
    behind_sign(close, Sign::CloseBracket)
}

// A property or a verb of an object: `$` stands for `#0` before a plain name.
#[tactic(auto, using(crate::proofs::Plain::plain_is_identifier))]
#[cycle(ahead)]
fn behind_dotted<'a>(
    text: &'a [u8],
    sign: Sign,
    object: &Expression,
    name: &Expression,
) -> Option<&'a [u8]>
    ensures { IfSome result (λ r. bare text.now ≡ canonical.dotted (sign_meant sign)
        (canonical.at_level 8 (level_of object.now) (canonical.expression_tokens object.now))
        (is_system_of object.now) (plain_name_of name.now) (canonical.expression_tokens name.now) ++ bare r.now) }
{
    let plain = plain_name(name);
    if is_system(object) {
        if let Some(word) = plain {
            let rest = behind_sign(text, Sign::Dollar)?;
            return behind_word(rest, word.as_bytes());
        }
    }
    let dot = behind_at(text, 8, object)?;
    let rest = behind_sign(dot, sign)?;
    match plain {
        Some(word) => behind_word(rest, word.as_bytes()),
        None => behind_group(rest, name),
    }
}

// Arguments in parentheses.
#[cycle(ahead)]
fn behind_parentheses<'a>(text: &'a [u8], arguments: &[Argument]) -> Option<&'a [u8]>
    ensures { IfSome result (λ r. bare text.now ≡ canonical.in_parentheses (canonical.arguments_tokens (arguments_of arguments.now)) ++ bare r.now) }
{
    let open = behind_sign(text, Sign::OpenParenthesis)?;
    let close = behind_arguments(open, arguments)?;
    behind_sign(close, Sign::CloseParenthesis)
}

#[cycle(ahead)]
fn behind_arguments<'a>(text: &'a [u8], arguments: &[Argument]) -> Option<&'a [u8]>
    ensures { IfSome result (λ r. bare text.now ≡ canonical.arguments_tokens (arguments_of arguments.now) ++ bare r.now) }
{
    let Some((first, others)) = arguments.split_first() else {
        return Some(text);
    };
    let mut rest = behind_argument(text, first)?;
    for argument in others {
        let comma = behind_sign(rest, Sign::Comma)?;
        rest = behind_argument(comma, argument)?;
    }
    Some(rest)
}

#[cycle(ahead)]
fn behind_argument<'a>(text: &'a [u8], argument: &Argument) -> Option<&'a [u8]>
    ensures { IfSome result (λ r. bare text.now ≡ one_argument argument.now ++ bare r.now) }
{
    match argument {
        Argument::Value(value) => behind_expression(text, value),
        Argument::Splice(list) => {
            let rest = behind_sign(text, Sign::At)?;
            behind_expression(rest, list)
        }
    }
}

/// What stands behind the codes that a handler takes.
#[cycle(ahead)]
pub fn behind_codes<'a>(text: &'a [u8], codes: &Codes) -> Option<&'a [u8]>
    ensures { IfSome result (λ r. bare text.now ≡ canonical.codes_tokens (codes_of codes.now) ++ bare r.now) }
{
    match codes {
        Codes::Any => behind_keyword(text, Keyword::Any),
        Codes::Listed(codes) => behind_arguments(text, codes),
    }
}

#[cycle(ahead)]
fn behind_catch<'a>(
    text: &'a [u8],
    body: &Expression,
    codes: &Codes,
    fallback: &Fallback,
) -> Option<&'a [u8]>
    ensures { IfSome result (λ r. bare text.now ≡ canonical.between spec.backquote (canonical.expression_tokens body.now
        ++ (spec.sign spec.not_sign ∷ (canonical.codes_tokens (codes_of codes.now) ++ canonical.fallback_tokens (fallback_of fallback.now)))) spec.quote ++ bare r.now) }
{
    let open = behind_sign(text, Sign::Backquote)?;
    let sign = behind_expression(open, body)?;
    let first = behind_sign(sign, Sign::Not)?;
    let second = behind_codes(first, codes)?;
    let close = behind_fallback(second, fallback)?;
    behind_sign(close, Sign::Quote)
}

#[cycle(ahead)]
fn behind_fallback<'a>(text: &'a [u8], fallback: &Fallback) -> Option<&'a [u8]>
    ensures { IfSome result (λ r. bare text.now ≡ canonical.fallback_tokens (fallback_of fallback.now) ++ bare r.now) }
{
    match fallback {
        Fallback::TheCode => Some(text),
        Fallback::Instead(value) => {
            let rest = behind_sign(text, Sign::Arrow)?;
            behind_expression(rest, value)
        }
    }
}

#[cycle(ahead)]
fn behind_target<'a>(text: &'a [u8], target: &Target) -> Option<&'a [u8]>
    ensures { IfSome result (λ r. bare text.now ≡ canonical.target_tokens target.now ++ bare r.now) }
{
    match &target.node {
        TargetNode::Variable(name) => behind_text(text, name),
        TargetNode::Property(object, name) => behind_dotted(text, Sign::Dot, object, name),
        TargetNode::Index(base, index) => {
            let open = behind_target(text, base)?;
            behind_index(open, index)
        }
        TargetNode::Range(base, first, last) => {
            let open = behind_target(text, base)?;
            behind_range(open, first, last)
        }
    }
}

#[cycle(ahead)]
fn behind_items<'a>(text: &'a [u8], items: &[Item]) -> Option<&'a [u8]>
    ensures { IfSome result (λ r. bare text.now ≡ canonical.items_tokens (items_of items.now) ++ bare r.now) }
{
    let Some((first, others)) = items.split_first() else {
        return Some(text);
    };
    let mut rest = behind_item(text, first)?;
    for item in others {
        let comma = behind_sign(rest, Sign::Comma)?;
        rest = behind_item(comma, item)?;
    }
    Some(rest)
}

#[cycle(ahead)]
fn behind_item<'a>(text: &'a [u8], item: &Item) -> Option<&'a [u8]>
    ensures { IfSome result (λ r. bare text.now ≡ one_item item.now ++ bare r.now) }
{
    match item {
        Item::Required(name) => behind_text(text, name),
        Item::Optional(name) => {
            let rest = behind_sign(text, Sign::Question)?;
            behind_text(rest, name)
        }
        Item::Rest(name) => {
            let rest = behind_sign(text, Sign::At)?;
            behind_text(rest, name)
        }
        Item::Default(name, value) => {
            let rest = behind_sign(text, Sign::Question)?;
            let sign = behind_text(rest, name)?;
            let rest = behind_sign(sign, Sign::Assign)?;
            behind_expression(rest, value)
        }
    }
}
