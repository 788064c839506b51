//! Expressions of two others.
use moo_tree::expression::{Expression, ExpressionNode};
use moo_value::operator::BinaryOperator;

/// An expression of two others.
#[derive(Clone, Copy)]
pub enum Pair {
    Operator(BinaryOperator),
    /// `&&`
    Both,
    /// `||`
    Either,
    /// An object and the name of its property.
    Property,
    /// A list or a text, and the index.
    Index,
}

impl Pair {
    /// The expression of these two.
    pub fn of(self, first: Box<Expression>, second: Box<Expression>) -> ExpressionNode {
        match self {
            Pair::Operator(operator) => ExpressionNode::Binary(operator, first, second),
            Pair::Both => ExpressionNode::Both(first, second),
            Pair::Either => ExpressionNode::Either(first, second),
            Pair::Property => ExpressionNode::Property(first, second),
            Pair::Index => ExpressionNode::Index(first, second),
        }
    }
}
