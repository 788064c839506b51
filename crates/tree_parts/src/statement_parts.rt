//! The parts of statements and programs. Each is asked for by how many stand before it.
ghost use Rattle.std.specs.Prelude.{◌≡◌, ◌∷◌, [], option_map};
ghost use Rattle.spec_program.specs.Construct.{of_program};
ghost use Rattle.spec_program.specs.Tree as tree;
ghost use Rattle.spec_program.specs.Place as spec;
ghost use Rattle.moo_tree.specs.StatementView.{arms_of, branches_of, program_of};
ghost use Rattle.tree_parts.specs.Parts.{part_of};

use crate::expression_parts::{code_count, code_part};
use crate::holds::{Holds, Values};
use crate::listed::{beside, body, no_tree, of_three, of_two, plain, sole};
use crate::node::Node;
use crate::parts::Part;
use moo_tree::statement::{Arm, Branch, Statement, StatementNode};

/// A part of a statement.
pub fn statement_part<'a>(statement: &'a Statement, index: usize) -> Option<Part<'a>>
    ensures { option_map part_of result ≡ spec.nth (spec.statement_parts statement.now) index }
{
    match &statement.node {
        StatementNode::Evaluate(value) | StatementNode::Return(Some(value)) => {
            sole(plain(value, 0), index)
        }
        StatementNode::Return(None) | StatementNode::Break(_) | StatementNode::Continue(_) => None,
        StatementNode::If {
            branches,
            otherwise: None,
        } => branch_part(branches, index),
        StatementNode::If {
            branches,
            otherwise: Some(statements),
        } => branch_or_else_part(branches, statements, index),
        StatementNode::ForEach {
            variable: _,
            list,
            body: turn,
        } => of_two(plain(list, 0), body(turn, Holds::ListWalk), index),
        StatementNode::ForRange {
            variable: _,
            first,
            last,
            body: turn,
        } => of_three(
            plain(first, 0),
            plain(last, 1),
            body(turn, Holds::RangeWalk),
            index,
        ),
        StatementNode::While {
            name: _,
            condition,
            body: turn,
        } => of_two(plain(condition, 0), alone(turn), index),
        StatementNode::Fork {
            variable: _,
            delay,
            body: _,
        } => of_two(plain(delay, 0), no_tree(), index),
        StatementNode::TryExcept { body: tried, arms } => guarded_part(tried, arms, index),
        StatementNode::TryFinally {
            body: tried,
            cleanup,
        } => of_two(alone(tried), body(cleanup, Holds::WhyLeft), index),
    }
}

/// A statement of a program.
pub fn program_part<'a>(statements: &'a [Statement], index: usize) -> Option<Part<'a>>
    ensures { option_map part_of result ≡ spec.nth (spec.program_parts (program_of statements.now)) index }
{
    if index < statements.len() {
        let statement = &statements[index];
        Some(beside(Node::Statement(statement), Values::Any(0)))
    } else {
        None
    }
}

// Statements with nothing held beside them.
fn alone<'a>(statements: &'a [Statement]) -> Part<'a>
    ensures { part_of result ≡ spec.part (of_program (program_of statements.now)) [] }
{
    body(statements, Holds::Values(Values::Any(0)))
}

// A condition, or what is done under it.
fn branch_part<'a>(branches: &'a [Branch], index: usize) -> Option<Part<'a>>
    ensures { option_map part_of result ≡ spec.nth (spec.branch_parts (branches_of branches.now)) index }
{
    let place = index / 2;
    if place < branches.len() {
        let branch = &branches[place];
        of_branch(branch, index % 2)
    } else {
        None
    }
}

fn of_branch<'a>(branch: &'a Branch, index: usize) -> Option<Part<'a>>
    ensures { option_map part_of result ≡ spec.nth (spec.branch_parts (branches_of (branch.now ∷ []))) index }
{
    of_two(plain(&branch.condition, 0), alone(&branch.body), index)
}

fn branch_or_else_part<'a>(
    branches: &'a [Branch],
    otherwise: &'a [Statement],
    index: usize,
) -> Option<Part<'a>>
    ensures { option_map part_of result
        ≡ spec.nth (spec.statement_parts (tree.branch (branches_of branches.now) (tree.else_do (program_of otherwise.now)))) index }
{
    if index / 2 < branches.len() {
        branch_part(branches, index)
    } else {
        sole(alone(otherwise), index - 2 * branches.len())
    }
}

fn guarded_part<'a>(tried: &'a [Statement], arms: &'a [Arm], index: usize) -> Option<Part<'a>>
    ensures { option_map part_of result ≡ spec.nth (spec.statement_parts (tree.guarded (program_of tried.now) (arms_of arms.now))) index }
{
    if index == 0 {
        Some(body(tried, Holds::Values(Values::Arms(arms))))
    } else {
        arm_part(arms, index - 1)
    }
}

// A code of an arm, or its statements.
fn arm_part<'a>(arms: &'a [Arm], index: usize) -> Option<Part<'a>>
    ensures { option_map part_of result ≡ spec.nth (spec.arm_parts [] (arms_of arms.now)) index }
{
    let mut left = index;
    for i in 0..arms.len() {
        let arm = &arms[i];
        let count = code_count(&arm.codes);
        if left < count {
            let before = &arms[..i];
            return code_part(&arm.codes, Values::ArmsAndList(before), left);
        }
        if left == count {
            return Some(alone(&arm.body));
        }
        left -= count + 1;
    }
    None
}
