//! What stands in a text behind the tokens of a program's canonical spelling.
ghost use Rattle.std.specs.Prelude.{◌≡◌, [], ◌∷◌, ◌++◌, None, Option, IfSome};
ghost use Rattle.spec_program.specs.Tokens as spec;
ghost use Rattle.spec_program.specs.CanonicalTokens.{expression_tokens, between, in_parentheses, codes_tokens};
ghost use Rattle.spec_spelling.specs.ProgramTokens as canonical;
ghost use Rattle.moo_tree.specs.ExpressionView.{codes_of};
ghost use Rattle.moo_tree.specs.StatementView.{program_of, branches_of, arms_of};
ghost use Rattle.moo_token.specs.Meaning.{keyword_meant};
ghost use Rattle.tokens_ahead.specs.Bare.{bare};
ghost use Rattle.tree_tokens.specs.Parts.{one_branch, one_arm};

use crate::expression::{behind_codes, behind_expression, behind_range};
use crate::literal::{behind_optional_name, behind_text};
use moo_token::token::{Keyword, Sign};
use moo_tree::expression::{Codes, Expression};
use moo_tree::statement::{Arm, Branch, Statement, StatementNode};
use moo_value::text::Text;
use tokens_ahead::sign::behind_sign;
use tokens_ahead::word::behind_keyword;

// An expression and a semicolon.
fn behind_value<'a>(text: &'a [u8], value: &Expression) -> Option<&'a [u8]>
    ensures { IfSome result (λ r. bare text.now ≡ canonical.with_semicolon (expression_tokens value.now) ++ bare r.now) }
{
    let end = behind_expression(text, value)?;
    behind_sign(end, Sign::Semicolon)
}

// Perhaps a name, and a semicolon.
fn behind_leaving<'a>(text: &'a [u8], name: &Option<Text>) -> Option<&'a [u8]>
    ensures { IfSome result (λ r. bare text.now ≡ canonical.with_semicolon (canonical.name_before name.now) ++ bare r.now) }
{
    let end = behind_optional_name(text, name)?;
    behind_sign(end, Sign::Semicolon)
}

// An expression in parentheses.
fn behind_condition<'a>(text: &'a [u8], condition: &Expression) -> Option<&'a [u8]>
    ensures { IfSome result (λ r. bare text.now ≡ in_parentheses (expression_tokens condition.now) ++ bare r.now) }
{
    let open = behind_sign(text, Sign::OpenParenthesis)?;
    let close = behind_expression(open, condition)?;
    behind_sign(close, Sign::CloseParenthesis)
}

// A head word, perhaps a name, and an expression in parentheses.
fn behind_head<'a>(
    text: &'a [u8],
    word: Keyword,
    name: &Option<Text>,
    condition: &Expression,
) -> Option<&'a [u8]>
    ensures { IfSome result (λ r. bare text.now ≡ canonical.head (keyword_meant word) name.now (expression_tokens condition.now) ++ bare r.now) }
{
    let first = behind_keyword(text, word)?;
    let second = behind_optional_name(first, name)?;
    behind_condition(second, condition)
}

// A head word and an expression in parentheses.
fn behind_plain_head<'a>(text: &'a [u8], word: Keyword, condition: &Expression) -> Option<&'a [u8]>
    ensures { IfSome result (λ r. bare text.now ≡ canonical.head (keyword_meant word) None (expression_tokens condition.now) ++ bare r.now) }
{
    let rest = behind_keyword(text, word)?;
    behind_condition(rest, condition)
}

// The head of a handler.
fn behind_except<'a>(text: &'a [u8], variable: &Option<Text>, codes: &Codes) -> Option<&'a [u8]>
    ensures { IfSome result (λ r. bare text.now ≡ canonical.head spec.except_word variable.now (codes_tokens (codes_of codes.now)) ++ bare r.now) }
{
    let first = behind_keyword(text, Keyword::Except)?;
    let second = behind_optional_name(first, variable)?;
    let open = behind_sign(second, Sign::OpenParenthesis)?;
    let close = behind_codes(open, codes)?;
    behind_sign(close, Sign::CloseParenthesis)
}

// `for x in`
fn behind_for<'a>(text: &'a [u8], variable: &Text) -> Option<&'a [u8]>
    ensures { IfSome result (λ r. bare text.now ≡ spec.keyword spec.for_word ∷ spec.word variable.now ∷ spec.keyword spec.in_word ∷ bare r.now) }
{
    let first = behind_keyword(text, Keyword::For)?;
    let second = behind_text(first, variable)?;
    behind_keyword(second, Keyword::In)
}

// What stands behind a statement.
#[cycle(ahead)]
fn behind_statement<'a>(text: &'a [u8], statement: &Statement) -> Option<&'a [u8]>
    ensures { IfSome result (λ r. bare text.now ≡ canonical.statement_tokens statement.now ++ bare r.now) }
{
    match &statement.node {
        StatementNode::Evaluate(value) => behind_value(text, value),
        StatementNode::Return(Some(value)) => {
            let rest = behind_keyword(text, Keyword::Return)?;
            behind_value(rest, value)
        }
        StatementNode::Return(None) => {
            let rest = behind_keyword(text, Keyword::Return)?;
            behind_sign(rest, Sign::Semicolon)
        }
        StatementNode::If {
            branches,
            otherwise: None,
        } => {
            let rest = behind_branches(text, branches)?;
            behind_keyword(rest, Keyword::EndIf)
        }
        StatementNode::If {
            branches,
            otherwise: Some(body),
        } => {
            let rest = behind_branches(text, branches)?;
            let rest = behind_keyword(rest, Keyword::Else)?;
            behind_body(rest, body, Keyword::EndIf)
        }
        StatementNode::ForEach {
            variable,
            list,
            body,
        } => {
            let open = behind_for(text, variable)?;
            let rest = behind_condition(open, list)?;
            behind_body(rest, body, Keyword::EndFor)
        }
        StatementNode::ForRange {
            variable,
            first,
            last,
            body,
        } => {
            let open = behind_for(text, variable)?;
            let rest = behind_range(open, first, last)?;
            behind_body(rest, body, Keyword::EndFor)
        }
        StatementNode::While {
            name,
            condition,
            body,
        } => {
            let rest = behind_head(text, Keyword::While, name, condition)?;
            behind_body(rest, body, Keyword::EndWhile)
        }
        StatementNode::Fork {
            variable,
            delay,
            body,
        } => {
            let rest = behind_head(text, Keyword::Fork, variable, delay)?;
            behind_body(rest, body, Keyword::EndFork)
        }
        StatementNode::TryExcept { body, arms } => {
            let first = behind_keyword(text, Keyword::Try)?;
            let second = behind_statements(first, body)?;
            let rest = behind_arms(second, arms)?;
            behind_keyword(rest, Keyword::EndTry)
        }
        StatementNode::TryFinally { body, cleanup } => {
            let first = behind_keyword(text, Keyword::Try)?;
            let second = behind_body(first, body, Keyword::Finally)?;
            behind_body(second, cleanup, Keyword::EndTry)
        }
        StatementNode::Break(name) => {
            let rest = behind_keyword(text, Keyword::Break)?;
            behind_leaving(rest, name)
        }
        StatementNode::Continue(name) => {
            let rest = behind_keyword(text, Keyword::Continue)?;
            behind_leaving(rest, name)
        }
    }
}

// Statements up to a word behind them.
#[cycle(ahead)]
fn behind_body<'a>(text: &'a [u8], body: &[Statement], word: Keyword) -> Option<&'a [u8]>
    ensures { IfSome result (λ r. bare text.now ≡ canonical.up_to (canonical.program_tokens (program_of body.now)) (keyword_meant word) ++ bare r.now) }
{
    let rest = behind_statements(text, body)?;
    behind_keyword(rest, word)
}

/// What stands behind statements.
#[cycle(ahead)]
pub fn behind_statements<'a>(text: &'a [u8], statements: &[Statement]) -> Option<&'a [u8]>
    ensures { IfSome result (λ r. bare text.now ≡ canonical.program_tokens (program_of statements.now) ++ bare r.now) }
{
    let mut rest = text;
    for statement in statements {
        rest = behind_statement(rest, statement)?;
    }
    Some(rest)
}

#[cycle(ahead)]
fn behind_branches<'a>(text: &'a [u8], branches: &[Branch]) -> Option<&'a [u8]>
    ensures { IfSome result (λ r. bare text.now ≡ canonical.branches_tokens spec.if_word (branches_of branches.now) ++ bare r.now) }
{
    let Some((first, others)) = branches.split_first() else {
        return Some(text);
    };
    let mut rest = behind_branch(text, Keyword::If, first)?;
    for branch in others {
        rest = behind_branch(rest, Keyword::ElseIf, branch)?;
    }
    Some(rest)
}

#[cycle(ahead)]
fn behind_branch<'a>(text: &'a [u8], word: Keyword, branch: &Branch) -> Option<&'a [u8]>
    ensures { IfSome result (λ r. bare text.now ≡ one_branch (keyword_meant word) branch.now ++ bare r.now) }
{
    let rest = behind_plain_head(text, word, &branch.condition)?;
    behind_statements(rest, &branch.body)
}

#[cycle(ahead)]
fn behind_arms<'a>(text: &'a [u8], arms: &[Arm]) -> Option<&'a [u8]>
    ensures { IfSome result (λ r. bare text.now ≡ canonical.arms_tokens (arms_of arms.now) ++ bare r.now) }
{
    let mut rest = text;
    for arm in arms {
        rest = behind_arm(rest, arm)?;
    }
    Some(rest)
}

#[cycle(ahead)]
fn behind_arm<'a>(text: &'a [u8], arm: &Arm) -> Option<&'a [u8]>
    ensures { IfSome result (λ r. bare text.now ≡ one_arm arm.now ++ bare r.now) }
{
    let rest = behind_except(text, &arm.variable, &arm.codes)?;
    behind_statements(rest, &arm.body)
}
