//! Copies of loops and forks, around copies of their bodies, and of what leaves them.
ghost use Rattle.std.specs.Prelude.{◌≡◌, IfOk};
ghost use Rattle.spec_program.specs.Tree.{for_each, for_range, repeat, fork, leave_loop, next_turn};
ghost use Rattle.moo_tree.specs.StatementView.{program_of};

use crate::expression::copy_expression;
use moo_tree::expression::Expression;
use moo_tree::statement::{Statement, StatementNode};
use moo_value::text::Text;
use std::alloc::{AllocError, Global};

/// A copy of a loop over a list.
pub fn copy_for_each(
    alloc: Global,
    variable: &Text,
    list: &Expression,
    body: Vec<Statement>,
) -> Result<Statement, AllocError>
    ensures { IfOk result (λ s. s ≡ for_each variable.now list.now (program_of body.items)) }
{
    Ok(Statement {
        node: StatementNode::ForEach {
            variable: variable.clone()?,
            list: copy_expression(alloc, list)?,
            body,
        },
    })
}

/// A copy of a loop over a range.
pub fn copy_for_range(
    alloc: Global,
    variable: &Text,
    first: &Expression,
    last: &Expression,
    body: Vec<Statement>,
) -> Result<Statement, AllocError>
    ensures { IfOk result (λ s. s ≡ for_range variable.now first.now last.now (program_of body.items)) }
{
    let variable = variable.clone()?;
    let (first, last) = copy_ends(alloc, first, last)?;
    Ok(Statement {
        node: StatementNode::ForRange {
            variable,
            first,
            last,
            body,
        },
    })
}

fn copy_ends(
    alloc: Global,
    first: &Expression,
    last: &Expression,
) -> Result<(Expression, Expression), AllocError>
    ensures { IfOk result (λ ends. (ends.0 ≡ first.now) × (ends.1 ≡ last.now)) }
{
    let first = copy_expression(alloc, first)?;
    match copy_expression(alloc, last) {
        Ok(last) => Ok((first, last)),
        Err(error) => {
            // (by a call, as each kind of expression is gone through where one is let go in place)
            drop(first);
            Err(error)
        }
    }
}

/// A copy of a loop under a condition.
pub fn copy_while(
    alloc: Global,
    name: &Option<Text>,
    condition: &Expression,
    body: Vec<Statement>,
) -> Result<Statement, AllocError>
    ensures { IfOk result (λ s. s ≡ repeat name.now condition.now (program_of body.items)) }
{
    Ok(Statement {
        node: StatementNode::While {
            name: copy_name(name)?,
            condition: copy_expression(alloc, condition)?,
            body,
        },
    })
}

/// A copy of a fork.
pub fn copy_fork(
    alloc: Global,
    variable: &Option<Text>,
    delay: &Expression,
    body: Vec<Statement>,
) -> Result<Statement, AllocError>
    ensures { IfOk result (λ s. s ≡ fork variable.now delay.now (program_of body.items)) }
{
    Ok(Statement {
        node: StatementNode::Fork {
            variable: copy_name(variable)?,
            delay: copy_expression(alloc, delay)?,
            body,
        },
    })
}

/// A copy of a `break`.
pub fn copy_break(name: &Option<Text>) -> Result<Statement, AllocError>
    ensures { IfOk result (λ s. s ≡ leave_loop name.now) }
{
    Ok(Statement {
        node: StatementNode::Break(copy_name(name)?),
    })
}

/// A copy of a `continue`.
pub fn copy_continue(name: &Option<Text>) -> Result<Statement, AllocError>
    ensures { IfOk result (λ s. s ≡ next_turn name.now) }
{
    Ok(Statement {
        node: StatementNode::Continue(copy_name(name)?),
    })
}

/// A copy of a name, if there is one.
pub fn copy_name(name: &Option<Text>) -> Result<Option<Text>, AllocError>
    ensures { IfOk result (λ n. n ≡ name.now) }
{
    match name {
        Some(name) => Ok(Some(name.clone()?)),
        None => Ok(None),
    }
}
