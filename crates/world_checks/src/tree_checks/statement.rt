//! Statements that texts spell.
ghost use Rattle.std.specs.Prelude.{◌≡◌, ◌&&◌, false, [], ◌∷◌, IfOk};
ghost use Rattle.spec_program.specs.Trees as spec;
ghost use Rattle.moo_tree.specs.ExpressionView.{codes_of};
ghost use Rattle.moo_tree.specs.StatementView.{program_of, branches_of, arms_of};

use crate::tree_checks::expression::{codes_fit, expression_fits};
use crate::tree_checks::names::{copy, is_around, is_name, may_name, within};
use moo_tree::statement::{Arm, Branch, Statement, StatementNode};
use moo_value::text::Text;
use std::alloc::{AllocError, Global};

/// Whether a text spells statements in loops with these names, the innermost first.
#[cycle(statement)]
pub fn program_fits(
    alloc: Global,
    loops: &[Option<Text>],
    statements: &[Statement],
) -> Result<bool, AllocError>
    ensures { IfOk result (λ fits. fits ≡ spec.program_fits loops.now (program_of statements.now)) }
{
    for statement in statements {
        if !statement_fits(alloc, loops, statement)? {
            return Ok(false);
        }
    }
    Ok(true)
}

#[cycle(statement)]
fn statement_fits(
    alloc: Global,
    loops: &[Option<Text>],
    statement: &Statement,
) -> Result<bool, AllocError>
    ensures { IfOk result (λ fits. fits ≡ spec.statement_fits loops.now statement.now) }
{
    match &statement.node {
        StatementNode::Evaluate(value) => Ok(expression_fits(false, value)),
        StatementNode::Return(Some(value)) => Ok(expression_fits(false, value)),
        StatementNode::Return(None) => Ok(true),
        StatementNode::If {
            branches,
            otherwise: None,
        } => some_branches_fit(alloc, loops, branches),
        StatementNode::If {
            branches,
            otherwise: Some(body),
        } => {
            if !some_branches_fit(alloc, loops, branches)? {
                return Ok(false);
            }
            program_fits(alloc, loops, body)
        }
        StatementNode::ForEach {
            variable,
            list,
            body,
        } => {
            if !(is_name(variable) && expression_fits(false, list)) {
                return Ok(false);
            }
            let name = Some(variable.clone()?);
            body_fits(alloc, loops, name, body)
        }
        StatementNode::ForRange {
            variable,
            first,
            last,
            body,
        } => {
            if !(is_name(variable)
                && (expression_fits(false, first) && expression_fits(false, last)))
            {
                return Ok(false);
            }
            let name = Some(variable.clone()?);
            body_fits(alloc, loops, name, body)
        }
        StatementNode::While {
            name,
            condition,
            body,
        } => {
            if !(may_name(name) && expression_fits(false, condition)) {
                return Ok(false);
            }
            let name = copy(name)?;
            body_fits(alloc, loops, name, body)
        }
        StatementNode::Fork {
            variable,
            delay,
            body,
        } => {
            if !(may_name(variable) && expression_fits(false, delay)) {
                return Ok(false);
            }
            fork_fits(alloc, body)
        }
        StatementNode::TryExcept { body, arms } => {
            if !has_arm(arms) {
                return Ok(false);
            }
            if !program_fits(alloc, loops, body)? {
                return Ok(false);
            }
            arms_fit(alloc, loops, arms)
        }
        StatementNode::TryFinally { body, cleanup } => {
            if !program_fits(alloc, loops, body)? {
                return Ok(false);
            }
            program_fits(alloc, loops, cleanup)
        }
        StatementNode::Break(name) => Ok(may_name(name) && is_around(loops, name)),
        StatementNode::Continue(name) => Ok(may_name(name) && is_around(loops, name)),
    }
}

// The statements within a loop of this name.
#[cycle(statement)]
fn body_fits(
    alloc: Global,
    loops: &[Option<Text>],
    name: Option<Text>,
    body: &[Statement],
) -> Result<bool, AllocError>
    ensures { IfOk result (λ fits. fits ≡ spec.program_fits (name ∷ loops.now) (program_of body.now)) }
{
    let inner = within(alloc, loops, name)?;
    program_fits(alloc, &inner, body)
}

// A fork's body stands in no loop.
#[cycle(statement)]
fn fork_fits(alloc: Global, body: &[Statement]) -> Result<bool, AllocError>
    ensures { IfOk result (λ fits. fits ≡ spec.program_fits [] (program_of body.now)) }
{
    let none = Vec::new(alloc);
    program_fits(alloc, &none, body)
}

#[cycle(statement)]
fn some_branches_fit(
    alloc: Global,
    loops: &[Option<Text>],
    branches: &[Branch],
) -> Result<bool, AllocError>
    ensures { IfOk result (λ fits. fits ≡ (spec.has_branch (branches_of branches.now) && spec.branches_fit loops.now (branches_of branches.now))) }
{
    if !has_branch(branches) {
        return Ok(false);
    }
    branches_fit(alloc, loops, branches)
}

fn has_branch(branches: &[Branch]) -> bool
    ensures { result ≡ spec.has_branch (branches_of branches.now) }
{
    match branches {
        [] => false,
        [_, ..] => true,
    }
}

#[cycle(statement)]
fn branches_fit(
    alloc: Global,
    loops: &[Option<Text>],
    branches: &[Branch],
) -> Result<bool, AllocError>
    ensures { IfOk result (λ fits. fits ≡ spec.branches_fit loops.now (branches_of branches.now)) }
{
    for branch in branches {
        if !branch_fits(alloc, loops, branch)? {
            return Ok(false);
        }
    }
    Ok(true)
}

#[cycle(statement)]
fn branch_fits(alloc: Global, loops: &[Option<Text>], branch: &Branch) -> Result<bool, AllocError>
    ensures { IfOk result (λ fits. fits ≡ (spec.expr_fits false branch.now.condition && spec.program_fits loops.now (program_of branch.now.body.items))) }
{
    if !expression_fits(false, &branch.condition) {
        return Ok(false);
    }
    program_fits(alloc, loops, &branch.body)
}

fn has_arm(arms: &[Arm]) -> bool
    ensures { result ≡ spec.has_arm (arms_of arms.now) }
{
    match arms {
        [] => false,
        [_, ..] => true,
    }
}

#[cycle(statement)]
fn arms_fit(alloc: Global, loops: &[Option<Text>], arms: &[Arm]) -> Result<bool, AllocError>
    ensures { IfOk result (λ fits. fits ≡ spec.arms_fit loops.now (arms_of arms.now)) }
{
    for arm in arms {
        if !arm_fits(alloc, loops, arm)? {
            return Ok(false);
        }
    }
    Ok(true)
}

#[cycle(statement)]
fn arm_fits(alloc: Global, loops: &[Option<Text>], arm: &Arm) -> Result<bool, AllocError>
    ensures { IfOk result (λ fits. fits ≡ ((spec.may_name arm.now.variable && spec.codes_fit false (codes_of arm.now.codes)) && spec.program_fits loops.now (program_of arm.now.body.items))) }
{
    if !(may_name(&arm.variable) && codes_fit(false, &arm.codes)) {
        return Ok(false);
    }
    program_fits(alloc, loops, &arm.body)
}
