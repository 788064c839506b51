//! Statements of the grammar, of bounded height.
ghost use Rattle.std.specs.Prelude.{◌≡◌, ◌&&◌, ◌≤◌, false, [], ◌∷◌, max, IfOk, IsTrue};
ghost use Rattle.spec_program.specs.Trees as spec;
ghost use Rattle.moo_tree.specs.ExpressionView.{codes_of};
ghost use Rattle.moo_tree.specs.StatementView.{program_of, branches_of, arms_of};

use crate::expression::{codes_fit, expression_fits};
use crate::loops::{copy, is_around, within};
use crate::name::{is_name, may_name};
use moo_tree::statement::{Arm, Branch, Statement, StatementNode};
use moo_value::text::Text;
use std::alloc::{AllocError, Global};

/// Whether statements in loops with these names, the innermost first, are of the grammar, and each at most `room` nodes high.
#[cycle(statement)]
pub fn program_fits(
    alloc: Global,
    loops: &[Option<Text>],
    statements: &[Statement],
    room: u8,
) -> Result<bool, AllocError>
    ensures fits { IfOk result (λ yes. IsTrue yes → IsTrue (spec.program_fits loops.now (program_of statements.now))) }
    ensures height { IfOk result (λ yes. IsTrue yes → spec.program_height (program_of statements.now) ≤ room) }
{
    for statement in statements {
        if !statement_fits(alloc, loops, statement, room)? {
            return Ok(false);
        }
    }
    Ok(true)
}

#[cycle(statement)]
fn statement_fits(
    alloc: Global,
    loops: &[Option<Text>],
    statement: &Statement,
    room: u8,
) -> Result<bool, AllocError>
    ensures fits { IfOk result (λ yes. IsTrue yes → IsTrue (spec.statement_fits loops.now statement.now)) }
    ensures height { IfOk result (λ yes. IsTrue yes → spec.statement_height statement.now ≤ room) }
{
    if room == 0 {
        return Ok(false);
    }
    let inner = room - 1;
    match &statement.node {
        StatementNode::Evaluate(value) => Ok(expression_fits(false, value, inner)),
        StatementNode::Return(Some(value)) => Ok(expression_fits(false, value, inner)),
        StatementNode::Return(None) => Ok(true),
        StatementNode::If {
            branches,
            otherwise: None,
        } => some_branches_fit(alloc, loops, branches, inner),
        StatementNode::If {
            branches,
            otherwise: Some(body),
        } => {
            if !some_branches_fit(alloc, loops, branches, inner)? {
                return Ok(false);
            }
            program_fits(alloc, loops, body, inner)
        }
        StatementNode::ForEach {
            variable,
            list,
            body,
        } => {
            if !(is_name(variable) && expression_fits(false, list, inner)) {
                return Ok(false);
            }
            let name = Some(variable.clone()?);
            body_fits(alloc, loops, name, body, inner)
        }
        StatementNode::ForRange {
            variable,
            first,
            last,
            body,
        } => {
            if !(is_name(variable)
                && (expression_fits(false, first, inner) && expression_fits(false, last, inner)))
            {
                return Ok(false);
            }
            let name = Some(variable.clone()?);
            body_fits(alloc, loops, name, body, inner)
        }
        StatementNode::While {
            name,
            condition,
            body,
        } => {
            if !(may_name(name) && expression_fits(false, condition, inner)) {
                return Ok(false);
            }
            let name = copy(name)?;
            body_fits(alloc, loops, name, body, inner)
        }
        StatementNode::Fork {
            variable,
            delay,
            body,
        } => {
            if !(may_name(variable) && expression_fits(false, delay, inner)) {
                return Ok(false);
            }
            fork_fits(alloc, body, inner)
        }
        StatementNode::TryExcept { body, arms } => {
            if !has_arm(arms) {
                return Ok(false);
            }
            if !program_fits(alloc, loops, body, inner)? {
                return Ok(false);
            }
            arms_fit(alloc, loops, arms, inner)
        }
        StatementNode::TryFinally { body, cleanup } => {
            if !program_fits(alloc, loops, body, inner)? {
                return Ok(false);
            }
            program_fits(alloc, loops, cleanup, inner)
        }
        StatementNode::Break(name) => Ok(may_name(name) && is_around(loops, name)),
        StatementNode::Continue(name) => Ok(may_name(name) && is_around(loops, name)),
    }
}

// The statements within a loop of this name.
#[cycle(statement)]
fn body_fits(
    alloc: Global,
    loops: &[Option<Text>],
    name: Option<Text>,
    body: &[Statement],
    room: u8,
) -> Result<bool, AllocError>
    ensures fits { IfOk result (λ yes. IsTrue yes → IsTrue (spec.program_fits (name ∷ loops.now) (program_of body.now))) }
    ensures height { IfOk result (λ yes. IsTrue yes → spec.program_height (program_of body.now) ≤ room) }
{
    let inner = within(alloc, loops, name)?;
    program_fits(alloc, &inner, body, room)
}

// A fork's body stands in no loop.
#[cycle(statement)]
fn fork_fits(alloc: Global, body: &[Statement], room: u8) -> Result<bool, AllocError>
    ensures fits { IfOk result (λ yes. IsTrue yes → IsTrue (spec.program_fits [] (program_of body.now))) }
    ensures height { IfOk result (λ yes. IsTrue yes → spec.program_height (program_of body.now) ≤ room) }
{
    let none = Vec::new(alloc);
    program_fits(alloc, &none, body, room)
}

#[cycle(statement)]
fn some_branches_fit(
    alloc: Global,
    loops: &[Option<Text>],
    branches: &[Branch],
    room: u8,
) -> Result<bool, AllocError>
    ensures fits { IfOk result (λ yes. IsTrue yes → IsTrue (spec.has_branch (branches_of branches.now) && spec.branches_fit loops.now (branches_of branches.now))) }
    ensures height { IfOk result (λ yes. IsTrue yes → spec.branches_height (branches_of branches.now) ≤ room) }
{
    if !has_branch(branches) {
        return Ok(false);
    }
    branches_fit(alloc, loops, branches, room)
}

fn has_branch(branches: &[Branch]) -> bool
    ensures { result ≡ spec.has_branch (branches_of branches.now) }
{
    match branches {
        [] => false,
        [_, ..] => true,
    }
}

#[cycle(statement)]
fn branches_fit(
    alloc: Global,
    loops: &[Option<Text>],
    branches: &[Branch],
    room: u8,
) -> Result<bool, AllocError>
    ensures fits { IfOk result (λ yes. IsTrue yes → IsTrue (spec.branches_fit loops.now (branches_of branches.now))) }
    ensures height { IfOk result (λ yes. IsTrue yes → spec.branches_height (branches_of branches.now) ≤ room) }
{
    for branch in branches {
        if !branch_fits(alloc, loops, branch, room)? {
            return Ok(false);
        }
    }
    Ok(true)
}

#[cycle(statement)]
fn branch_fits(
    alloc: Global,
    loops: &[Option<Text>],
    branch: &Branch,
    room: u8,
) -> Result<bool, AllocError>
    ensures fits { IfOk result (λ yes. IsTrue yes → IsTrue (spec.expr_fits false branch.now.condition && spec.program_fits loops.now (program_of branch.now.body.items))) }
    ensures height { IfOk result (λ yes. IsTrue yes → max (spec.expr_height branch.now.condition) (spec.program_height (program_of branch.now.body.items)) ≤ room) }
{
    if !expression_fits(false, &branch.condition, room) {
        return Ok(false);
    }
    program_fits(alloc, loops, &branch.body, room)
}

fn has_arm(arms: &[Arm]) -> bool
    ensures { result ≡ spec.has_arm (arms_of arms.now) }
{
    match arms {
        [] => false,
        [_, ..] => true,
    }
}

#[cycle(statement)]
fn arms_fit(
    alloc: Global,
    loops: &[Option<Text>],
    arms: &[Arm],
    room: u8,
) -> Result<bool, AllocError>
    ensures fits { IfOk result (λ yes. IsTrue yes → IsTrue (spec.arms_fit loops.now (arms_of arms.now))) }
    ensures height { IfOk result (λ yes. IsTrue yes → spec.arms_height (arms_of arms.now) ≤ room) }
{
    for arm in arms {
        if !arm_fits(alloc, loops, arm, room)? {
            return Ok(false);
        }
    }
    Ok(true)
}

#[cycle(statement)]
fn arm_fits(alloc: Global, loops: &[Option<Text>], arm: &Arm, room: u8) -> Result<bool, AllocError>
    ensures fits { IfOk result (λ yes. IsTrue yes → IsTrue ((spec.may_name arm.now.variable && spec.codes_fit false (codes_of arm.now.codes)) && spec.program_fits loops.now (program_of arm.now.body.items))) }
    ensures height { IfOk result (λ yes. IsTrue yes → max (spec.codes_height (codes_of arm.now.codes)) (spec.program_height (program_of arm.now.body.items)) ≤ room) }
{
    if !(may_name(&arm.variable) && codes_fit(false, &arm.codes, room)) {
        return Ok(false);
    }
    program_fits(alloc, loops, &arm.body, room)
}
