//! Parts of trees, lent.
ghost use Rattle.std.specs.Prelude.{◌≡◌};
ghost use Rattle.spec_program.specs.Construct.{of_expr};
ghost use Rattle.spec_program.specs.Place as spec;
ghost use Rattle.tree_parts.specs.Nodes.{construct_of};

use moo_tree::expression::{Expression, ExpressionNode, Target};
use moo_tree::statement::Statement;
use moo_value::text::Text;

/// A construct: a part of a tree that has parts of its own.
#[derive(Clone, Copy)]
pub enum Node<'a> {
    Expression(&'a Expression),
    Target(&'a Target),
    /// An item of a scatter with its default: the variable and the default.
    Default(&'a Text, &'a Expression),
    Statement(&'a Statement),
    Program(&'a [Statement]),
}

/// Whether a construct is a call of a function or a verb.
pub fn is_call(node: Node<'_>) -> bool
    ensures { result ≡ spec.is_call (construct_of node.entry) }
{
    match node {
        Node::Expression(expression) => is_call_expression(expression),
        Node::Target(_) | Node::Default(_, _) | Node::Statement(_) | Node::Program(_) => false,
    }
}

fn is_call_expression(expression: &Expression) -> bool
    ensures { result ≡ spec.is_call (of_expr expression.now) }
{
    match &expression.node {
        ExpressionNode::Call(_, _) | ExpressionNode::VerbCall(_, _, _) => true,
        _ => false,
    }
}
