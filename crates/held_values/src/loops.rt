//! Loops around what is under way.
ghost use Rattle.std.specs.Prelude.{◌≡◌, ◌+◌, IfOk};
ghost use Rattle.spec_world.specs.WellFormed.{is_loop};
ghost use Rattle.tree_parts.specs.Nodes.{construct_of};

use moo_tree::statement::StatementNode;
use std::alloc::AllocError;
use tree_parts::node::Node;

/// A sum. No tree is so large that no number counts what is in it.
pub fn plus(a: usize, b: usize) -> Result<usize, AllocError>
    ensures { IfOk result (λ n. n ≡ a + b) }
{
    a.checked_add(b).ok_or(AllocError)
}

/// 1 for a loop.
pub fn loop_count(node: Node<'_>) -> usize
    ensures { result ≡ is_loop (construct_of node.entry) }
{
    match node {
        Node::Statement(statement) => match &statement.node {
            StatementNode::ForEach {
                variable: _,
                list: _,
                body: _,
            }
            | StatementNode::ForRange {
                variable: _,
                first: _,
                last: _,
                body: _,
            }
            | StatementNode::While {
                name: _,
                condition: _,
                body: _,
            } => 1,
            _ => 0,
        },
        _ => 0,
    }
}
