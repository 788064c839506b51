//! Copies of expressions.
ghost use Rattle.std.specs.Prelude.{◌≡◌, IfOk};
ghost use Rattle.moo_tree.specs.ExpressionView.{codes_of, fallback_of};

use crate::parts::{copy_call, copy_literal, copy_variable};
use moo_tree::expression::{
    Argument, Codes, Expression, ExpressionNode, Fallback, Item, Target, TargetNode,
};
use std::alloc::{AllocError, Global};

/// A copy of an expression.
#[cycle(expression)]
pub fn copy_expression(alloc: Global, expression: &Expression) -> Result<Expression, AllocError>
    ensures { IfOk result (λ e. e ≡ expression.now) }
{
    match &expression.node {
        ExpressionNode::Literal(value) => copy_literal(value),
        ExpressionNode::Variable(name) => copy_variable(name),
        ExpressionNode::OwnLength => Ok(Expression {
            node: ExpressionNode::OwnLength,
        }),
        ExpressionNode::Unary(operator, operand) => Ok(Expression {
            node: ExpressionNode::Unary(*operator, copy_part(alloc, operand)?),
        }),
        ExpressionNode::Binary(operator, left, right) => {
            let (left, right) = copy_pair(alloc, left, right)?;
            Ok(Expression {
                node: ExpressionNode::Binary(*operator, left, right),
            })
        }
        ExpressionNode::Both(left, right) => {
            let (left, right) = copy_pair(alloc, left, right)?;
            Ok(Expression {
                node: ExpressionNode::Both(left, right),
            })
        }
        ExpressionNode::Either(left, right) => {
            let (left, right) = copy_pair(alloc, left, right)?;
            Ok(Expression {
                node: ExpressionNode::Either(left, right),
            })
        }
        ExpressionNode::Conditional(condition, first, second) => {
            let condition = copy_part(alloc, condition)?;
            let (first, second) = copy_pair(alloc, first, second)?;
            Ok(Expression {
                node: ExpressionNode::Conditional(condition, first, second),
            })
        }
        ExpressionNode::List(items) => Ok(Expression {
            node: ExpressionNode::List(copy_arguments(alloc, items)?),
        }),
        ExpressionNode::Call(name, arguments) => copy_call(name, copy_arguments(alloc, arguments)?),
        ExpressionNode::Property(object, name) => {
            let (object, name) = copy_pair(alloc, object, name)?;
            Ok(Expression {
                node: ExpressionNode::Property(object, name),
            })
        }
        ExpressionNode::VerbCall(object, name, arguments) => {
            let arguments = copy_arguments(alloc, arguments)?;
            let (object, name) = copy_pair(alloc, object, name)?;
            Ok(Expression {
                node: ExpressionNode::VerbCall(object, name, arguments),
            })
        }
        ExpressionNode::Index(whole, index) => {
            let (whole, index) = copy_pair(alloc, whole, index)?;
            Ok(Expression {
                node: ExpressionNode::Index(whole, index),
            })
        }
        ExpressionNode::Range(whole, first, last) => {
            let whole = copy_part(alloc, whole)?;
            let (first, last) = copy_pair(alloc, first, last)?;
            Ok(Expression {
                node: ExpressionNode::Range(whole, first, last),
            })
        }
        ExpressionNode::Catch(inner, codes, fallback) => {
            let inner = copy_part(alloc, inner)?;
            let (codes, fallback) = copy_handler(alloc, codes, fallback)?;
            Ok(Expression {
                node: ExpressionNode::Catch(inner, codes, fallback),
            })
        }
        ExpressionNode::Assignment(target, value) => {
            let value = copy_part(alloc, value)?;
            Ok(Expression {
                node: ExpressionNode::Assignment(copy_target(alloc, target)?, value),
            })
        }
        ExpressionNode::Scatter(items, value) => {
            let items = copy_items(alloc, items)?;
            Ok(Expression {
                node: ExpressionNode::Scatter(items, copy_part(alloc, value)?),
            })
        }
    }
}

#[cycle(expression)]
fn copy_part(alloc: Global, expression: &Expression) -> Result<Box<Expression>, AllocError>
    ensures { IfOk result (λ b. b.value ≡ expression.now) }
{
    let copy = copy_expression(alloc, expression)?;
    Ok(Box::new(alloc, copy)?)
}

#[cycle(expression)]
fn copy_pair(
    alloc: Global,
    left: &Expression,
    right: &Expression,
) -> Result<(Box<Expression>, Box<Expression>), AllocError>
    ensures { IfOk result (λ p. (p.0.value ≡ left.now) × (p.1.value ≡ right.now)) }
{
    let left = copy_part(alloc, left)?;
    let right = copy_part(alloc, right)?;
    Ok((left, right))
}

#[cycle(expression)]
fn copy_target(alloc: Global, target: &Target) -> Result<Target, AllocError>
    ensures { IfOk result (λ t. t ≡ target.now) }
{
    match &target.node {
        TargetNode::Variable(name) => Ok(Target {
            node: TargetNode::Variable(name.clone()?),
        }),
        TargetNode::Property(object, name) => {
            let (object, name) = copy_pair(alloc, object, name)?;
            Ok(Target {
                node: TargetNode::Property(object, name),
            })
        }
        TargetNode::Index(within, index) => {
            let within = copy_target_part(alloc, within)?;
            Ok(Target {
                node: TargetNode::Index(within, copy_part(alloc, index)?),
            })
        }
        TargetNode::Range(within, first, last) => {
            let within = copy_target_part(alloc, within)?;
            let (first, last) = copy_pair(alloc, first, last)?;
            Ok(Target {
                node: TargetNode::Range(within, first, last),
            })
        }
    }
}

#[cycle(expression)]
fn copy_target_part(alloc: Global, target: &Target) -> Result<Box<Target>, AllocError>
    ensures { IfOk result (λ b. b.value ≡ target.now) }
{
    let copy = copy_target(alloc, target)?;
    Ok(Box::new(alloc, copy)?)
}

#[cycle(expression)]
fn copy_handler(
    alloc: Global,
    codes: &Codes,
    fallback: &Fallback,
) -> Result<(Codes, Fallback), AllocError>
    ensures { IfOk result (λ p. (codes_of p.0 ≡ codes_of codes.now) × (fallback_of p.1 ≡ fallback_of fallback.now)) }
{
    let codes = copy_codes(alloc, codes)?;
    let fallback = copy_fallback(alloc, fallback)?;
    Ok((codes, fallback))
}

/// A copy of a handler's codes.
#[cycle(expression)]
pub fn copy_codes(alloc: Global, codes: &Codes) -> Result<Codes, AllocError>
    ensures { IfOk result (λ c. codes_of c ≡ codes_of codes.now) }
{
    match codes {
        Codes::Any => Ok(Codes::Any),
        Codes::Listed(listed) => Ok(Codes::Listed(copy_arguments(alloc, listed)?)),
    }
}

#[cycle(expression)]
fn copy_fallback(alloc: Global, fallback: &Fallback) -> Result<Fallback, AllocError>
    ensures { IfOk result (λ f. fallback_of f ≡ fallback_of fallback.now) }
{
    match fallback {
        Fallback::TheCode => Ok(Fallback::TheCode),
        Fallback::Instead(value) => Ok(Fallback::Instead(copy_part(alloc, value)?)),
    }
}

#[cycle(expression)]
fn copy_argument(alloc: Global, argument: &Argument) -> Result<Argument, AllocError>
    ensures { IfOk result (λ a. a ≡ argument.now) }
{
    match argument {
        Argument::Value(value) => Ok(Argument::Value(copy_expression(alloc, value)?)),
        Argument::Splice(list) => Ok(Argument::Splice(copy_expression(alloc, list)?)),
    }
}

#[cycle(expression)]
fn copy_arguments(alloc: Global, arguments: &[Argument]) -> Result<Vec<Argument>, AllocError>
    ensures { IfOk result (λ v. v.items ≡ arguments.now) }
{
    let mut copies = Vec::with_capacity(alloc, arguments.len())?;
    for i in 0..arguments.len() {
        let copy = copy_argument(alloc, &arguments[i])?;
        copies.push(copy)?;
    }
    Ok(copies)
}

#[cycle(expression)]
fn copy_item(alloc: Global, item: &Item) -> Result<Item, AllocError>
    ensures { IfOk result (λ x. x ≡ item.now) }
{
    match item {
        Item::Required(name) => Ok(Item::Required(name.clone()?)),
        Item::Optional(name) => Ok(Item::Optional(name.clone()?)),
        Item::Rest(name) => Ok(Item::Rest(name.clone()?)),
        Item::Default(name, value) => {
            let name = name.clone()?;
            Ok(Item::Default(name, copy_expression(alloc, value)?))
        }
    }
}

#[cycle(expression)]
fn copy_items(alloc: Global, items: &[Item]) -> Result<Vec<Item>, AllocError>
    ensures { IfOk result (λ v. v.items ≡ items.now) }
{
    let mut copies = Vec::with_capacity(alloc, items.len())?;
    for i in 0..items.len() {
        let copy = copy_item(alloc, &items[i])?;
        copies.push(copy)?;
    }
    Ok(copies)
}
