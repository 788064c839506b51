//! Expressions as text, behind what is there.
ghost use Rattle.std.specs.Prelude.{◌≡◌, ◌++◌, OnOk, IsTrue};
ghost use Rattle.spec_value.specs.Datum.{is_text};
ghost use Rattle.spec_program.specs.Spelling as spec;
ghost use Rattle.moo_tree.specs.ExpressionView.{arguments_of, codes_of, items_of};
ghost use Rattle.moo_value.specs.Operators.{unary_of, binary_of};
ghost use Rattle.moo_printer.specs.Written.{one_argument, one_item};

use crate::level::{left_level, level, right_level};
use crate::line::Line;
use crate::name::{is_system, plain_name};
use moo_tree::expression::{
    Argument, Codes, Expression, ExpressionNode, Fallback, Item, Target, TargetNode,
};
use moo_value::operator::{BinaryOperator, UnaryOperator};
use std::alloc::AllocError;

fn unary_sign(operator: UnaryOperator) -> &'static str
    ensures sign { result.now ≡ spec.unary_sign (unary_of operator) }
    ensures allowed { IsTrue (is_text result.now) }
{
    match operator {
        UnaryOperator::Negation => "-",
        UnaryOperator::NotTrue => "!",
    }
}

fn binary_sign(operator: BinaryOperator) -> &'static str
    ensures sign { result.now ≡ spec.binary_sign (binary_of operator) }
    ensures allowed { IsTrue (is_text result.now) }
{
    match operator {
        BinaryOperator::Plus => " + ",
        BinaryOperator::Minus => " - ",
        BinaryOperator::Times => " * ",
        BinaryOperator::DividedBy => " / ",
        BinaryOperator::RemainderBy => " % ",
        BinaryOperator::ToThe => " ^ ",
        BinaryOperator::Equals => " == ",
        BinaryOperator::Differs => " != ",
        BinaryOperator::Less => " < ",
        BinaryOperator::LessOrEqual => " <= ",
        BinaryOperator::Greater => " > ",
        BinaryOperator::GreaterOrEqual => " >= ",
        BinaryOperator::IsIn => " in ",
    }
}

/// Writes an expression.
#[cycle(write)]
pub fn write_expression(out: &mut Line, expression: &Expression) -> Result<(), AllocError>
    ensures { OnOk result (out.new ≡ out.old ++ spec.expression_text expression.now) }
{
    match &expression.node {
        ExpressionNode::Literal(value) => out.push_literal(value),
        ExpressionNode::Variable(name) => out.push_text(name),
        ExpressionNode::OwnLength => out.push_str("$"),
        ExpressionNode::Unary(operator, operand) => {
            out.push_str(unary_sign(*operator))?;
            write_at(out, 7, operand)
        }
        ExpressionNode::Binary(operator, left, right) => {
            let sign = binary_sign(*operator);
            write_infix(
                out,
                left,
                left_level(*operator),
                sign,
                right,
                right_level(*operator),
            )
        }
        ExpressionNode::Both(left, right) => write_infix(out, left, 2, " && ", right, 3),
        ExpressionNode::Either(left, right) => write_infix(out, left, 2, " || ", right, 3),
        ExpressionNode::Conditional(condition, value, other) => {
            write_at(out, 2, condition)?;
            out.push_str(" ? ")?;
            write_expression(out, value)?;
            out.push_str(" | ")?;
            write_at(out, 1, other)
        }
        ExpressionNode::List(items) => {
            out.push_str("{")?;
            write_arguments(out, items)?;
            out.push_str("}")
        }
        ExpressionNode::Call(function, arguments) => {
            out.push_text(function)?;
            out.push_str("(")?;
            write_arguments(out, arguments)?;
            out.push_str(")")
        }
        ExpressionNode::Property(object, name) => write_dotted(out, ".", object, name),
        ExpressionNode::VerbCall(object, name, arguments) => {
            write_dotted(out, ":", object, name)?;
            out.push_str("(")?;
            write_arguments(out, arguments)?;
            out.push_str(")")
        }
        ExpressionNode::Index(base, index) => {
            write_at(out, 8, base)?;
            out.push_str("[")?;
            write_expression(out, index)?;
            out.push_str("]")
        }
        ExpressionNode::Range(base, first, last) => {
            write_at(out, 8, base)?;
            out.push_str("[")?;
            write_expression(out, first)?;
            out.push_str("..")?;
            write_expression(out, last)?;
            out.push_str("]")
        }
        ExpressionNode::Catch(body, codes, fallback) => {
            out.push_str("`")?;
            write_expression(out, body)?;
            out.push_str(" ! ")?;
            write_codes(out, codes)?;
            if let Fallback::Instead(value) = fallback {
                out.push_str(" => ")?;
                write_expression(out, value)?;
            }
            out.push_str("'")
        }
        ExpressionNode::Assignment(target, value) => {
            write_target(out, target)?;
            out.push_str(" = ")?;
            write_expression(out, value)
        }
        ExpressionNode::Scatter(items, value) => {
            out.push_str("{")?;
            write_items(out, items)?;
            out.push_str("}")?;
            out.push_str(" = ")?;
            write_expression(out, value)
        }
    }
}

// In parentheses where it binds less tightly than its place wants.
#[cycle(write)]
fn write_at(out: &mut Line, wanted: u8, expression: &Expression) -> Result<(), AllocError>
    ensures { OnOk result (out.new ≡ out.old ++ spec.at_level wanted (spec.level expression.now) (spec.expression_text expression.now)) }
{
    if wanted <= level(expression) {
        return write_expression(out, expression);
    }
    out.push_str("(")?;
    write_expression(out, expression)?;
    out.push_str(")")
}

#[cycle(write)]
fn write_infix(
    out: &mut Line,
    left: &Expression,
    left_wanted: u8,
    sign: &str,
    right: &Expression,
    right_wanted: u8,
) -> Result<(), AllocError>
    requires { IsTrue (is_text sign.now) }
    ensures { OnOk result (out.new ≡ out.old ++ spec.within (spec.at_level left_wanted (spec.level left.now) (spec.expression_text left.now)) sign.now
        (spec.at_level right_wanted (spec.level right.now) (spec.expression_text right.now))) }
{
    write_at(out, left_wanted, left)?;
    out.push_str(sign)?;
    write_at(out, right_wanted, right)
}

// A property or a verb of an object: `$` stands for `#0` before a plain name.
#[cycle(write)]
fn write_dotted(
    out: &mut Line,
    sign: &str,
    object: &Expression,
    name: &Expression,
) -> Result<(), AllocError>
    requires { IsTrue (is_text sign.now) }
    ensures { OnOk result (out.new ≡ out.old ++ spec.dotted sign.now (spec.at_level 8 (spec.level object.now) (spec.expression_text object.now))
        (spec.is_system object.now) (spec.plain_name name.now) (spec.expression_text name.now)) }
{
    let plain = plain_name(name);
    if is_system(object) {
        if let Some(text) = plain {
            out.push_str("$")?;
            return out.push_str(text);
        }
    }
    write_at(out, 8, object)?;
    out.push_str(sign)?;
    match plain {
        Some(text) => out.push_str(text),
        None => {
            out.push_str("(")?;
            write_expression(out, name)?;
            out.push_str(")")
        }
    }
}

#[cycle(write)]
fn write_arguments(out: &mut Line, arguments: &[Argument]) -> Result<(), AllocError>
    ensures { OnOk result (out.new ≡ out.old ++ spec.arguments_text (arguments_of arguments.now)) }
{
    if let Some((first, rest)) = arguments.split_first() {
        write_argument(out, first)?;
        for argument in rest {
            out.push_str(", ")?;
            write_argument(out, argument)?;
        }
    }
    Ok(())
}

#[cycle(write)]
fn write_argument(out: &mut Line, argument: &Argument) -> Result<(), AllocError>
    ensures { OnOk result (out.new ≡ out.old ++ one_argument argument.now) }
{
    match argument {
        Argument::Value(value) => write_expression(out, value),
        Argument::Splice(list) => {
            out.push_str("@")?;
            write_expression(out, list)
        }
    }
}

/// Writes the codes that a handler takes.
#[cycle(write)]
pub fn write_codes(out: &mut Line, codes: &Codes) -> Result<(), AllocError>
    ensures { OnOk result (out.new ≡ out.old ++ spec.codes_text (codes_of codes.now)) }
{
    match codes {
        Codes::Any => out.push_str("ANY"),
        Codes::Listed(codes) => write_arguments(out, codes),
    }
}

#[cycle(write)]
fn write_target(out: &mut Line, target: &Target) -> Result<(), AllocError>
    ensures { OnOk result (out.new ≡ out.old ++ spec.target_text target.now) }
{
    match &target.node {
        TargetNode::Variable(name) => out.push_text(name),
        TargetNode::Property(object, name) => write_dotted(out, ".", object, name),
        TargetNode::Index(base, index) => {
            write_target(out, base)?;
            out.push_str("[")?;
            write_expression(out, index)?;
            out.push_str("]")
        }
        TargetNode::Range(base, first, last) => {
            write_target(out, base)?;
            out.push_str("[")?;
            write_expression(out, first)?;
            out.push_str("..")?;
            write_expression(out, last)?;
            out.push_str("]")
        }
    }
}

#[cycle(write)]
fn write_items(out: &mut Line, items: &[Item]) -> Result<(), AllocError>
    ensures { OnOk result (out.new ≡ out.old ++ spec.items_text (items_of items.now)) }
{
    if let Some((first, rest)) = items.split_first() {
        write_item(out, first)?;
        for item in rest {
            out.push_str(", ")?;
            write_item(out, item)?;
        }
    }
    Ok(())
}

#[cycle(write)]
fn write_item(out: &mut Line, item: &Item) -> Result<(), AllocError>
    ensures { OnOk result (out.new ≡ out.old ++ one_item item.now) }
{
    match item {
        Item::Required(name) => out.push_text(name),
        Item::Optional(name) => {
            out.push_str("?")?;
            out.push_text(name)
        }
        Item::Rest(name) => {
            out.push_str("@")?;
            out.push_text(name)
        }
        Item::Default(name, value) => {
            out.push_str("?")?;
            out.push_text(name)?;
            out.push_str(" = ")?;
            write_expression(out, value)
        }
    }
}
