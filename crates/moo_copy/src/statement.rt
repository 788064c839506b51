//! Copies of statements and programs.
ghost use Rattle.std.specs.Prelude.{◌≡◌, map, IfOk};
ghost use Rattle.spec_program.specs.Tree.{evaluate};
ghost use Rattle.moo_tree.specs.StatementView.{returned, program_of, branch_of, arm_of};

use crate::expression::{copy_codes, copy_expression};
use crate::loops::{
    copy_break, copy_continue, copy_for_each, copy_for_range, copy_fork, copy_name, copy_while,
};
use moo_tree::expression::Expression;
use moo_tree::statement::{Arm, Branch, Statement, StatementNode, Tree};
use std::alloc::{AllocError, Global};

/// The program of copies of these statements.
pub fn copy_program(alloc: Global, statements: &[Statement]) -> Result<Tree, AllocError>
    ensures { IfOk result (λ tree. tree ≡ program_of statements.now) }
{
    let copies = copy_statements(alloc, statements)?;
    Ok(Tree::new(copies))
}

#[cycle(statement)]
fn copy_statements(alloc: Global, statements: &[Statement]) -> Result<Vec<Statement>, AllocError>
    ensures { IfOk result (λ v. v.items ≡ statements.now) }
{
    let mut copies = Vec::with_capacity(alloc, statements.len())?;
    for i in 0..statements.len() {
        let copy = copy_statement(alloc, &statements[i])?;
        copies.push(copy)?;
    }
    Ok(copies)
}

#[tactic(auto, using(moo_tree::proofs::Sameness::branches_equal, moo_tree::proofs::Sameness::arms_equal))]
#[cycle(statement)]
fn copy_statement(alloc: Global, statement: &Statement) -> Result<Statement, AllocError>
    ensures { IfOk result (λ s. s ≡ statement.now) }
{
    match &statement.node {
        StatementNode::Evaluate(value) => copy_evaluation(alloc, value),
        StatementNode::Return(value) => copy_return(alloc, value),
        StatementNode::If {
            branches,
            otherwise: None,
        } => Ok(Statement {
            node: StatementNode::If {
                branches: copy_branches(alloc, branches)?,
                otherwise: None,
            },
        }),
        StatementNode::If {
            branches,
            otherwise: Some(otherwise),
        } => Ok(Statement {
            node: StatementNode::If {
                branches: copy_branches(alloc, branches)?,
                otherwise: Some(copy_statements(alloc, otherwise)?),
            },
        }),
        StatementNode::ForEach {
            variable,
            list,
            body,
        } => copy_for_each(alloc, variable, list, copy_statements(alloc, body)?),
        StatementNode::ForRange {
            variable,
            first,
            last,
            body,
        } => copy_for_range(alloc, variable, first, last, copy_statements(alloc, body)?),
        StatementNode::While {
            name,
            condition,
            body,
        } => copy_while(alloc, name, condition, copy_statements(alloc, body)?),
        StatementNode::Fork {
            variable,
            delay,
            body,
        } => copy_fork(alloc, variable, delay, copy_statements(alloc, body)?),
        StatementNode::TryExcept { body, arms } => Ok(Statement {
            node: StatementNode::TryExcept {
                body: copy_statements(alloc, body)?,
                arms: copy_arms(alloc, arms)?,
            },
        }),
        StatementNode::TryFinally { body, cleanup } => Ok(Statement {
            node: StatementNode::TryFinally {
                body: copy_statements(alloc, body)?,
                cleanup: copy_statements(alloc, cleanup)?,
            },
        }),
        StatementNode::Break(name) => copy_break(name),
        StatementNode::Continue(name) => copy_continue(name),
    }
}

fn copy_evaluation(alloc: Global, value: &Expression) -> Result<Statement, AllocError>
    ensures { IfOk result (λ s. s ≡ evaluate value.now) }
{
    Ok(Statement {
        node: StatementNode::Evaluate(copy_expression(alloc, value)?),
    })
}

fn copy_return(alloc: Global, value: &Option<Expression>) -> Result<Statement, AllocError>
    ensures { IfOk result (λ s. s ≡ returned value.now) }
{
    Ok(Statement {
        node: StatementNode::Return(copy_value(alloc, value)?),
    })
}

fn copy_value(alloc: Global, value: &Option<Expression>) -> Result<Option<Expression>, AllocError>
    ensures { IfOk result (λ v. v ≡ value.now) }
{
    match value {
        Some(value) => Ok(Some(copy_expression(alloc, value)?)),
        None => Ok(None),
    }
}

#[cycle(statement)]
fn copy_branch(alloc: Global, branch: &Branch) -> Result<Branch, AllocError>
    ensures { IfOk result (λ b. branch_of b ≡ branch_of branch.now) }
{
    Ok(Branch {
        body: copy_statements(alloc, &branch.body)?,
        condition: copy_expression(alloc, &branch.condition)?,
    })
}

#[cycle(statement)]
fn copy_branches(alloc: Global, branches: &[Branch]) -> Result<Vec<Branch>, AllocError>
    ensures { IfOk result (λ v. map branch_of v.items ≡ map branch_of branches.now) }
{
    let mut copies = Vec::with_capacity(alloc, branches.len())?;
    for i in 0..branches.len() {
        let copy = copy_branch(alloc, &branches[i])?;
        copies.push(copy)?;
    }
    Ok(copies)
}

#[cycle(statement)]
fn copy_arm(alloc: Global, arm: &Arm) -> Result<Arm, AllocError>
    ensures { IfOk result (λ a. arm_of a ≡ arm_of arm.now) }
{
    Ok(Arm {
        body: copy_statements(alloc, &arm.body)?,
        variable: copy_name(&arm.variable)?,
        codes: copy_codes(alloc, &arm.codes)?,
    })
}

#[cycle(statement)]
fn copy_arms(alloc: Global, arms: &[Arm]) -> Result<Vec<Arm>, AllocError>
    ensures { IfOk result (λ v. map arm_of v.items ≡ map arm_of arms.now) }
{
    let mut copies = Vec::with_capacity(alloc, arms.len())?;
    for i in 0..arms.len() {
        let copy = copy_arm(alloc, &arms[i])?;
        copies.push(copy)?;
    }
    Ok(copies)
}
