//! Comparisons of trees, the case of letters in literal texts counted. None takes memory.
ghost use Rattle.std.specs.Prelude.{◌≡◌, ◌↔◌, IsTrue};
ghost use Rattle.moo_tree.specs.ExpressionView.{codes_of, fallback_of};

use crate::expression::{
    Argument, Codes, Expression, ExpressionNode, Fallback, Item, Target, TargetNode,
};
use moo_value::compare::equal;

impl Expression {
    /// Whether two expressions are the same.
    #[tactic(auto, using(crate::proofs::Sameness::equal_arguments, crate::proofs::Sameness::equal_items))]
    #[cycle(same_expression)]
    pub fn same(&self, other: &Expression) -> bool
        ensures { IsTrue result ↔ self.now ≡ other.now }
    {
        match (&self.node, &other.node) {
            (ExpressionNode::Literal(a), ExpressionNode::Literal(b)) => equal(a, b),
            (ExpressionNode::Variable(a), ExpressionNode::Variable(b)) => a.as_str() == b.as_str(),
            (ExpressionNode::OwnLength, ExpressionNode::OwnLength) => true,
            (ExpressionNode::Unary(p, a), ExpressionNode::Unary(q, b)) => p == q && a.same(b),
            (ExpressionNode::Binary(p, a, c), ExpressionNode::Binary(q, b, d)) => {
                p == q && a.same(b) && c.same(d)
            }
            (ExpressionNode::Both(a, c), ExpressionNode::Both(b, d))
            | (ExpressionNode::Either(a, c), ExpressionNode::Either(b, d))
            | (ExpressionNode::Property(a, c), ExpressionNode::Property(b, d))
            | (ExpressionNode::Index(a, c), ExpressionNode::Index(b, d)) => a.same(b) && c.same(d),
            (ExpressionNode::Conditional(a, c, e), ExpressionNode::Conditional(b, d, f))
            | (ExpressionNode::Range(a, c, e), ExpressionNode::Range(b, d, f)) => {
                a.same(b) && c.same(d) && e.same(f)
            }
            (ExpressionNode::List(xs), ExpressionNode::List(ys)) => same_arguments(xs, ys),
            (ExpressionNode::Call(a, xs), ExpressionNode::Call(b, ys)) => {
                same_arguments(xs, ys) && a.as_str() == b.as_str()
            }
            (ExpressionNode::VerbCall(a, c, xs), ExpressionNode::VerbCall(b, d, ys)) => {
                a.same(b) && c.same(d) && same_arguments(xs, ys)
            }
            (ExpressionNode::Catch(a, c, e), ExpressionNode::Catch(b, d, f)) => {
                a.same(b) && c.same(d) && e.same(f)
            }
            (ExpressionNode::Assignment(a, c), ExpressionNode::Assignment(b, d)) => {
                a.same(b) && c.same(d)
            }
            (ExpressionNode::Scatter(xs, a), ExpressionNode::Scatter(ys, b)) => {
                same_items(xs, ys) && a.same(b)
            }
            _ => false,
        }
    }
}

impl Target {
    /// Whether two targets are the same.
    #[cycle(same_expression)]
    pub fn same(&self, other: &Target) -> bool
        ensures { IsTrue result ↔ self.now ≡ other.now }
    {
        match (&self.node, &other.node) {
            (TargetNode::Variable(a), TargetNode::Variable(b)) => a.as_str() == b.as_str(),
            (TargetNode::Property(a, c), TargetNode::Property(b, d)) => a.same(b) && c.same(d),
            (TargetNode::Index(a, c), TargetNode::Index(b, d)) => a.same(b) && c.same(d),
            (TargetNode::Range(a, c, e), TargetNode::Range(b, d, f)) => {
                a.same(b) && c.same(d) && e.same(f)
            }
            _ => false,
        }
    }
}

impl Codes {
    /// Whether two handlers take the same codes.
    #[tactic(auto, using(crate::proofs::Sameness::equal_arguments))]
    #[cycle(same_expression)]
    pub fn same(&self, other: &Codes) -> bool
        ensures { IsTrue result ↔ codes_of self.now ≡ codes_of other.now }
    {
        match (self, other) {
            (Codes::Any, Codes::Any) => true,
            (Codes::Listed(xs), Codes::Listed(ys)) => same_arguments(xs, ys),
            _ => false,
        }
    }
}

impl Fallback {
    /// Whether two fallbacks are the same.
    #[cycle(same_expression)]
    pub fn same(&self, other: &Fallback) -> bool
        ensures { IsTrue result ↔ fallback_of self.now ≡ fallback_of other.now }
    {
        match (self, other) {
            (Fallback::TheCode, Fallback::TheCode) => true,
            (Fallback::Instead(a), Fallback::Instead(b)) => a.same(b),
            _ => false,
        }
    }
}

impl Argument {
    /// Whether two arguments are the same.
    #[cycle(same_expression)]
    pub fn same(&self, other: &Argument) -> bool
        ensures { IsTrue result ↔ self.now ≡ other.now }
    {
        match (self, other) {
            (Argument::Value(a), Argument::Value(b)) => a.same(b),
            (Argument::Splice(a), Argument::Splice(b)) => a.same(b),
            _ => false,
        }
    }
}

impl Item {
    /// Whether two items are the same.
    #[cycle(same_expression)]
    pub fn same(&self, other: &Item) -> bool
        ensures { IsTrue result ↔ self.now ≡ other.now }
    {
        match (self, other) {
            (Item::Required(a), Item::Required(b))
            | (Item::Optional(a), Item::Optional(b))
            | (Item::Rest(a), Item::Rest(b)) => a.as_str() == b.as_str(),
            (Item::Default(a, c), Item::Default(b, d)) => a.as_str() == b.as_str() && c.same(d),
            _ => false,
        }
    }
}

#[cycle(same_expression)]
fn same_arguments(xs: &[Argument], ys: &[Argument]) -> bool
    ensures { IsTrue result ↔ xs.now ≡ ys.now }
{
    if xs.len() != ys.len() {
        return false;
    }
    for i in 0..xs.len() {
        if !xs[i].same(&ys[i]) {
            return false;
        }
    }
    true
}

#[cycle(same_expression)]
fn same_items(xs: &[Item], ys: &[Item]) -> bool
    ensures { IsTrue result ↔ xs.now ≡ ys.now }
{
    if xs.len() != ys.len() {
        return false;
    }
    for i in 0..xs.len() {
        if !xs[i].same(&ys[i]) {
            return false;
        }
    }
    true
}
