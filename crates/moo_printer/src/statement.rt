//! Statements as lines, behind what is there.
ghost use Rattle.std.specs.Prelude.{◌≡◌, ◌++◌, [], ◌∷◌, OnOk, IfOk, IsTrue};
ghost use Rattle.spec_value.specs.Datum.{is_text};
ghost use Rattle.spec_program.specs.Spelling as spec;
ghost use Rattle.moo_tree.specs.StatementView.{program_of, branches_of, arms_of};
ghost use Rattle.moo_printer.specs.Written.{branch_lines, except_line};

use crate::expression::{write_codes, write_expression};
use crate::line::Line;
use moo_tree::expression::Expression;
use moo_tree::statement::{Arm, Branch, Statement, StatementNode};
use moo_value::text::Text;
use std::alloc::{AllocError, Global};

// The beginning of a line.
fn indented(alloc: Global, indent: &Text, text: &str) -> Result<Line, AllocError>
    requires { IsTrue (is_text text.now) }
    ensures { IfOk result (λ line. line ≡ indent.now ++ text.now) }
{
    let mut line = Line::new(alloc)?;
    line.push_text(indent)?;
    line.push_str(text)?;
    Ok(line)
}

// The indent of what stands within.
fn deeper(alloc: Global, indent: &Text) -> Result<Text, AllocError>
    ensures { IfOk result (λ inner. inner ≡ spec.deeper indent.now) }
{
    let mut line = Line::new(alloc)?;
    line.push_str("  ")?;
    line.push_text(indent)?;
    line.into_text()
}

// A line of its own, behind the others.
fn put(lines: &mut Vec<Text>, line: Line) -> Result<(), AllocError>
    ensures { OnOk result (lines.new.items ≡ lines.old.items ++ line ∷ []) }
{
    let text = line.into_text()?;
    lines.push(text)?;
    Ok(())
}

fn put_text(
    alloc: Global,
    lines: &mut Vec<Text>,
    indent: &Text,
    text: &str,
) -> Result<(), AllocError>
    requires { IsTrue (is_text text.now) }
    ensures { OnOk result (lines.new.items ≡ lines.old.items ++ (indent.now ++ text.now) ∷ []) }
{
    put(lines, indented(alloc, indent, text)?)
}

// A name behind a space, if there is one.
fn write_name(line: &mut Line, name: &Option<Text>) -> Result<(), AllocError>
    ensures { OnOk result (line.new ≡ line.old ++ spec.before_name name.now) }
{
    match name {
        Some(name) => {
            line.push_str(" ")?;
            line.push_text(name)
        }
        None => Ok(()),
    }
}

// An expression in parentheses, behind a space.
fn write_condition(line: &mut Line, condition: &Expression) -> Result<(), AllocError>
    ensures { OnOk result (line.new ≡ line.old ++ (32 ∷ spec.in_parentheses (spec.expression_text condition.now))) }
{
    line.push_str(" (")?;
    write_expression(line, condition)?;
    line.push_str(")")
}

// A word with a name and an expression: the head of a `while`, a `fork`, an `if`.
fn put_head(
    alloc: Global,
    lines: &mut Vec<Text>,
    indent: &Text,
    word: &str,
    name: &Option<Text>,
    condition: &Expression,
) -> Result<(), AllocError>
    requires { IsTrue (is_text word.now) }
    ensures { OnOk result (lines.new.items ≡ lines.old.items
        ++ (indent.now ++ spec.head (word.now ++ spec.before_name name.now) (spec.expression_text condition.now)) ∷ []) }
{
    let mut line = indented(alloc, indent, word)?;
    write_name(&mut line, name)?;
    write_condition(&mut line, condition)?;
    put(lines, line)
}

fn put_evaluation(
    alloc: Global,
    lines: &mut Vec<Text>,
    indent: &Text,
    word: &str,
    value: &Expression,
) -> Result<(), AllocError>
    requires { IsTrue (is_text word.now) }
    ensures { OnOk result (lines.new.items ≡ lines.old.items ++ (indent.now ++ (word.now ++ (spec.expression_text value.now ++ 59 ∷ []))) ∷ []) }
{
    let mut line = indented(alloc, indent, word)?;
    write_expression(&mut line, value)?;
    line.push_str(";")?;
    put(lines, line)
}

fn put_leaving(
    alloc: Global,
    lines: &mut Vec<Text>,
    indent: &Text,
    word: &str,
    name: &Option<Text>,
) -> Result<(), AllocError>
    requires { IsTrue (is_text word.now) }
    ensures { OnOk result (lines.new.items ≡ lines.old.items ++ (indent.now ++ (word.now ++ (spec.before_name name.now ++ 59 ∷ []))) ∷ []) }
{
    let mut line = indented(alloc, indent, word)?;
    write_name(&mut line, name)?;
    line.push_str(";")?;
    put(lines, line)
}

fn put_for_each(
    alloc: Global,
    lines: &mut Vec<Text>,
    indent: &Text,
    variable: &Text,
    list: &Expression,
) -> Result<(), AllocError>
    ensures { OnOk result (lines.new.items ≡ lines.old.items ++ (indent.now ++ ((102 ∷ 111 ∷ 114 ∷ 32 ∷ [])
        ++ spec.head (variable.now ++ (32 ∷ 105 ∷ 110 ∷ [])) (spec.expression_text list.now))) ∷ []) }
{
    let mut line = indented(alloc, indent, "for ")?;
    line.push_text(variable)?;
    line.push_str(" in")?;
    write_condition(&mut line, list)?;
    put(lines, line)
}

fn put_for_range(
    alloc: Global,
    lines: &mut Vec<Text>,
    indent: &Text,
    variable: &Text,
    first: &Expression,
    last: &Expression,
) -> Result<(), AllocError>
    ensures { OnOk result (lines.new.items ≡ lines.old.items ++ (indent.now ++ ((102 ∷ 111 ∷ 114 ∷ 32 ∷ [])
        ++ (variable.now ++ spec.within (32 ∷ 105 ∷ 110 ∷ 32 ∷ 91 ∷ [])
        (spec.within (spec.expression_text first.now) (46 ∷ 46 ∷ []) (spec.expression_text last.now)) (93 ∷ [])))) ∷ []) }
{
    let mut line = indented(alloc, indent, "for ")?;
    line.push_text(variable)?;
    line.push_str(" in [")?;
    write_expression(&mut line, first)?;
    line.push_str("..")?;
    write_expression(&mut line, last)?;
    line.push_str("]")?;
    put(lines, line)
}

fn put_except(
    alloc: Global,
    lines: &mut Vec<Text>,
    indent: &Text,
    arm: &Arm,
) -> Result<(), AllocError>
    ensures { OnOk result (lines.new.items ≡ lines.old.items ++ except_line indent.now arm.now ∷ []) }
{
    let mut line = indented(alloc, indent, "except")?;
    write_name(&mut line, &arm.variable)?;
    line.push_str(" (")?;
    write_codes(&mut line, &arm.codes)?;
    line.push_str(")")?;
    put(lines, line)
}

/// Adds the lines of a statement.
#[cycle(statement)]
fn put_statement(
    alloc: Global,
    lines: &mut Vec<Text>,
    indent: &Text,
    statement: &Statement,
) -> Result<(), AllocError>
    ensures { OnOk result (lines.new.items ≡ lines.old.items ++ spec.statement_lines indent.now statement.now) }
{
    match &statement.node {
        StatementNode::Evaluate(value) => put_evaluation(alloc, lines, indent, "", value),
        StatementNode::Return(Some(value)) => {
            put_evaluation(alloc, lines, indent, "return ", value)
        }
        StatementNode::Return(None) => put_text(alloc, lines, indent, "return;"),
        StatementNode::If {
            branches,
            otherwise,
        } => {
            put_branches(alloc, lines, indent, branches)?;
            if let Some(body) = otherwise {
                put_text(alloc, lines, indent, "else")?;
                put_body(alloc, lines, indent, body)?;
            }
            put_text(alloc, lines, indent, "endif")
        }
        StatementNode::ForEach {
            variable,
            list,
            body,
        } => {
            put_for_each(alloc, lines, indent, variable, list)?;
            put_body(alloc, lines, indent, body)?;
            put_text(alloc, lines, indent, "endfor")
        }
        StatementNode::ForRange {
            variable,
            first,
            last,
            body,
        } => {
            put_for_range(alloc, lines, indent, variable, first, last)?;
            put_body(alloc, lines, indent, body)?;
            put_text(alloc, lines, indent, "endfor")
        }
        StatementNode::While {
            name,
            condition,
            body,
        } => {
            put_head(alloc, lines, indent, "while", name, condition)?;
            put_body(alloc, lines, indent, body)?;
            put_text(alloc, lines, indent, "endwhile")
        }
        StatementNode::Fork {
            variable,
            delay,
            body,
        } => {
            put_head(alloc, lines, indent, "fork", variable, delay)?;
            put_body(alloc, lines, indent, body)?;
            put_text(alloc, lines, indent, "endfork")
        }
        StatementNode::TryExcept { body, arms } => {
            put_text(alloc, lines, indent, "try")?;
            put_body(alloc, lines, indent, body)?;
            put_arms(alloc, lines, indent, arms)?;
            put_text(alloc, lines, indent, "endtry")
        }
        StatementNode::TryFinally { body, cleanup } => {
            put_text(alloc, lines, indent, "try")?;
            put_body(alloc, lines, indent, body)?;
            put_text(alloc, lines, indent, "finally")?;
            put_body(alloc, lines, indent, cleanup)?;
            put_text(alloc, lines, indent, "endtry")
        }
        StatementNode::Break(name) => put_leaving(alloc, lines, indent, "break", name),
        StatementNode::Continue(name) => put_leaving(alloc, lines, indent, "continue", name),
    }
}

// The statements within another.
#[cycle(statement)]
fn put_body(
    alloc: Global,
    lines: &mut Vec<Text>,
    indent: &Text,
    body: &[Statement],
) -> Result<(), AllocError>
    ensures { OnOk result (lines.new.items ≡ lines.old.items ++ spec.program_lines (spec.deeper indent.now) (program_of body.now)) }
{
    let inner = deeper(alloc, indent)?;
    put_statements(alloc, lines, &inner, body)
}

/// Adds the lines of statements.
#[cycle(statement)]
pub fn put_statements(
    alloc: Global,
    lines: &mut Vec<Text>,
    indent: &Text,
    statements: &[Statement],
) -> Result<(), AllocError>
    ensures { OnOk result (lines.new.items ≡ lines.old.items ++ spec.program_lines indent.now (program_of statements.now)) }
{
    for statement in statements {
        put_statement(alloc, lines, indent, statement)?;
    }
    Ok(())
}

#[cycle(statement)]
fn put_branches(
    alloc: Global,
    lines: &mut Vec<Text>,
    indent: &Text,
    branches: &[Branch],
) -> Result<(), AllocError>
    ensures { OnOk result (lines.new.items ≡ lines.old.items ++ spec.branches_lines indent.now (105 ∷ 102 ∷ []) (branches_of branches.now)) }
{
    if let Some((first, rest)) = branches.split_first() {
        put_branch(alloc, lines, indent, "if", first)?;
        for branch in rest {
            put_branch(alloc, lines, indent, "elseif", branch)?;
        }
    }
    Ok(())
}

#[cycle(statement)]
fn put_branch(
    alloc: Global,
    lines: &mut Vec<Text>,
    indent: &Text,
    word: &str,
    branch: &Branch,
) -> Result<(), AllocError>
    requires { IsTrue (is_text word.now) }
    ensures { OnOk result (lines.new.items ≡ lines.old.items ++ branch_lines indent.now word.now branch.now) }
{
    put_head(alloc, lines, indent, word, &None, &branch.condition)?;
    put_body(alloc, lines, indent, &branch.body)
}

#[cycle(statement)]
fn put_arms(
    alloc: Global,
    lines: &mut Vec<Text>,
    indent: &Text,
    arms: &[Arm],
) -> Result<(), AllocError>
    ensures { OnOk result (lines.new.items ≡ lines.old.items ++ spec.arms_lines indent.now (arms_of arms.now)) }
{
    for arm in arms {
        put_except(alloc, lines, indent, arm)?;
        put_body(alloc, lines, indent, &arm.body)?;
    }
    Ok(())
}
