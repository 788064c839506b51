//! Operators with integers behind them, which are read at once. Of what is too deep already no tree is built.

ghost use Rattle.std.specs.Prelude.{◌≡◌, ◌∷◌, ◌++◌, [], IfOk, None, false};
ghost use Rattle.spec_program.specs.Frames.{an_expression};
ghost use Rattle.spec_program.specs.KeptNodes.{kept};
ghost use Rattle.spec_program.specs.ReadPrograms as by;
ghost use Rattle.spec_program.specs.Similar.{SimilarFound};
ghost use Rattle.spec_reader.specs.Next.{goes, reads_operators};
ghost use Rattle.moo_reader.specs.Views.{found_of};
ghost use Rattle.reader_begins.specs.Terms.{tree_with, with_term};
ghost use Rattle.reader_frames.specs.FrameViews.{all_begun};
ghost use Rattle.reader_frames.specs.LeftView.{left_of};
ghost use Rattle.reader_frames.specs.StateView.{state_of};
ghost use Rattle.moo_syntax.specs.Advances.{Advances};
ghost use Rattle.moo_syntax.specs.HiddenNodes.{node_alone, hides};

use moo_reader::found::Found;
use moo_reader::node::{Nodes, followed, under};
use moo_tree::expression::{Expression, ExpressionNode};
use moo_value::value::Value;
use reader_begins::literal::integer_of;
use reader_begins::operators::operators_begin;
use reader_begins::term::{Term, take_term};
use reader_frames::begun::Begun;
use reader_frames::left::Left;
use reader_frames::state::{BeforeOperators, Next, State};
use reader_step::step::step;
use std::alloc::{AllocError, Global};
use std::mem::replace;

// The tree of an expression with a term behind it.
fn joined_tree(alloc: Global, term: Term, tree: Expression) -> Result<Expression, AllocError>
    ensures { IfOk result (λ e. e ≡ tree_with tree term) }
{
    let value = Value::integer(integer_of(term.number));
    let integer = Expression {
        node: ExpressionNode::Literal(value),
    };
    let first = Box::new(alloc, tree)?;
    let second = Box::new(alloc, integer)?;
    Ok(Expression {
        node: ExpressionNode::Binary(term.operator, first, second),
    })
}

// Whether the last node is too deep.
#[tactic(auto, using(crate::proofs::TermNodes::none_deep))]
#[inline(always)]
fn ends_too_deep(nodes: &Nodes) -> bool
    ensures { by.too_deep nodes.now ≡ None → result ≡ false }
{
    let count = nodes.len();
    if count == 0 {
        return false;
    }
    100 < nodes.at(count - 1).depth
}

// The tree with a term behind it, unless these nodes of it are too deep.
#[inline(always)]
fn tree_on(
    alloc: Global,
    nodes: &Nodes,
    term: Term,
    tree: Expression,
) -> Result<Expression, AllocError>
    ensures { IfOk result (λ e. by.too_deep nodes.now ≡ None → tree_with tree term ≡ e) }
{
    if ends_too_deep(nodes) {
        Ok(tree)
    } else {
        joined_tree(alloc, term, tree)
    }
}

// Whether the node of an integer behind these is not kept.
#[tactic(auto, using(crate::proofs::TermNodes::none_hides, crate::proofs::TermNodes::first_hides))]
#[inline(always)]
fn hides_integer(nodes: &Nodes) -> bool
    ensures { result ≡ hides nodes.now }
{
    if nodes.len() == 0 {
        return false;
    }
    1 <= nodes.at(0).depth
}

// Nodes, and that of an integer behind them if it is kept.
#[tactic(auto, using(crate::proofs::TermNodes::not_kept))]
#[inline(always)]
fn nodes_on(alloc: Global, nodes: Nodes, line: u64) -> Result<Nodes, AllocError>
    ensures { IfOk result (λ v. kept (nodes ++ node_alone line ∷ []) ≡ kept v) }
{
    if hides_integer(&nodes) {
        return Ok(nodes);
    }
    let integer = under(line, Nodes::none(alloc))?;
    followed(nodes, integer)
}

// An expression with a term behind it, or what may stand in its place.
#[inline(always)]
fn joined(alloc: Global, found: Found, term: Term) -> Result<Found, AllocError>
    ensures { IfOk result (λ e. SimilarFound (with_term (found_of found) term) (found_of e)) }
{
    let Found { mut whole } = found;
    let nodes = replace(&mut whole.nodes, Nodes::none(alloc));
    let none = Expression {
        node: ExpressionNode::OwnLength,
    };
    let tree = replace(&mut whole.tree, none);
    whole.tree = tree_on(alloc, &nodes, term, tree)?;
    let nodes = nodes_on(alloc, nodes, term.line)?;
    whole.nodes = under(whole.line, nodes)?;
    Ok(Found { whole })
}

// On behind an expression: past a term at once, or one step.
#[tactic(auto, using(crate::proofs::TermsJoined::step_instead))]
#[inline(always)]
fn past_operators(
    alloc: Global,
    before: BeforeOperators,
    begun: Box<Begun>,
    mut left: Left,
) -> Result<State, AllocError>
    ensures { IfOk result (λ s. Advances (goes (reads_operators before.brackets before.level (found_of before.left)
        (all_begun begun.value an_expression)) (left_of left)) (state_of s)) }
{
    match take_term(before.level, &mut left) {
        Some(term) => {
            let BeforeOperators {
                brackets,
                level,
                left: found,
            } = before;
            let found = joined(alloc, found, term)?;
            let next = Next::Operators(BeforeOperators {
                brackets,
                level,
                left: found,
            });
            Ok(State { next, begun, left })
        }
        None => {
            let BeforeOperators {
                brackets,
                level,
                left: found,
            } = before;
            operators_begin(brackets, level, found, begun, left)
        }
    }
}

/// One step on, or several at once.
#[tactic(auto, using(crate::proofs::Going::step_advances))]
#[inline(always)]
pub fn onward(alloc: Global, state: State) -> Result<State, AllocError>
    ensures { IfOk result (λ s. Advances (state_of state) (state_of s)) }
{
    let State { next, begun, left } = state;
    match next {
        Next::Operators(before) => past_operators(alloc, before, begun, left),
        next => step(alloc, State { next, begun, left }),
    }
}
