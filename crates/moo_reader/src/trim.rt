//! What was read, without what is too deep: a tree that is too deep is told by its first place that is, so it need not be kept.

ghost use Rattle.std.specs.Prelude.{◌≡◌, IfOk, None, nat_lt};
ghost use Rattle.spec_program.specs.ReadPrograms as by;
ghost use Rattle.spec_program.specs.Similar.{SimilarFound};
ghost use Rattle.moo_reader.specs.Views.{found_of};

use crate::found::{Found, Parts, in_box, out_of_box};
use crate::node::{Node, Nodes, kept};
use moo_tree::expression::{Expression, ExpressionNode};
use std::alloc::{AllocError, Global};

// Whether a node is too deep.
fn is_deep(node: Node) -> bool
    ensures { result ≡ nat_lt 100 node.depth }
{
    100 < node.depth
}

/// The line of the first node that is too deep.
#[tactic(auto, using(crate::proofs::Depth::this_is_deep, crate::proofs::Depth::this_is_not, crate::proofs::Depth::none_is_deep))]
pub fn too_deep(nodes: &Nodes) -> Option<u64>
    ensures { result ≡ by.too_deep nodes.now }
{
    for place in 0..nodes.len() {
        let node = nodes.at(place);
        if is_deep(node) {
            return Some(node.line);
        }
    }
    None
}

// The tree, unless it is too deep.
fn shallow(tree: Expression, nodes: &Nodes) -> Expression
    ensures { by.too_deep nodes.now ≡ None → tree ≡ result }
{
    match too_deep(nodes) {
        None => tree,
        Some(_) => Expression {
            node: ExpressionNode::OwnLength,
        },
    }
}

// What is kept of a tree and its nodes.
fn few_of(alloc: Global, line: u64, tree: Expression, nodes: &Nodes) -> Result<Found, AllocError>
    ensures { IfOk result (λ e. SimilarFound (record { tree = tree; line = line; nodes = nodes.now }) (found_of e)) }
{
    let few = kept(alloc, nodes)?;
    let tree = shallow(tree, nodes);
    let found = in_box(alloc, line, tree, few)?;
    Ok(found)
}

/// An expression with the nodes that tell where it is too deep, and its tree where it is not: it may stand in the place of the whole one.
pub fn trimmed(alloc: Global, found: Found) -> Result<Found, AllocError>
    ensures { IfOk result (λ e. SimilarFound (found_of found) (found_of e)) }
{
    let Parts { line, tree, nodes } = out_of_box(found);
    few_of(alloc, line, tree, &nodes)
}
