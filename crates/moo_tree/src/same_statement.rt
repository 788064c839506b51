//! Comparisons of statements and programs, the case of letters in literal texts counted. None takes memory.
ghost use Rattle.std.specs.Prelude.{◌≡◌, ◌↔◌, IsTrue, map};
ghost use Rattle.moo_tree.specs.StatementView.{branch_of, arm_of};

use crate::statement::{Arm, Branch, Statement, StatementNode, Tree};
use moo_value::text::Text;

impl Tree {
    /// Whether two programs are the same, the case of letters in literal texts counted.
    pub fn same(&self, other: &Tree) -> bool
        ensures { IsTrue result ↔ self.now ≡ other.now }
    {
        same_statements(self.statements(), other.statements())
    }
}

impl Statement {
    /// Whether two statements are the same.
    #[tactic(auto, using(crate::proofs::Sameness::equal_statements, crate::proofs::Sameness::equal_branches, crate::proofs::Sameness::branches_equal, crate::proofs::Sameness::equal_arms, crate::proofs::Sameness::arms_equal))]
    #[cycle(same_statement)]
    pub fn same(&self, other: &Statement) -> bool
        ensures { IsTrue result ↔ self.now ≡ other.now }
    {
        match (&self.node, &other.node) {
            (StatementNode::Evaluate(a), StatementNode::Evaluate(b))
            | (StatementNode::Return(Some(a)), StatementNode::Return(Some(b))) => a.same(b),
            (StatementNode::Return(None), StatementNode::Return(None)) => true,
            (
                StatementNode::If {
                    branches: a,
                    otherwise: None,
                },
                StatementNode::If {
                    branches: b,
                    otherwise: None,
                },
            ) => same_branches(a, b),
            (
                StatementNode::If {
                    branches: a,
                    otherwise: Some(p),
                },
                StatementNode::If {
                    branches: b,
                    otherwise: Some(q),
                },
            ) => same_branches(a, b) && same_statements(p, q),
            (
                StatementNode::ForEach {
                    variable: x,
                    list: a,
                    body: p,
                },
                StatementNode::ForEach {
                    variable: y,
                    list: b,
                    body: q,
                },
            ) => a.same(b) && same_statements(p, q) && x.as_str() == y.as_str(),
            (
                StatementNode::ForRange {
                    variable: x,
                    first: a,
                    last: c,
                    body: p,
                },
                StatementNode::ForRange {
                    variable: y,
                    first: b,
                    last: d,
                    body: q,
                },
            ) => a.same(b) && c.same(d) && same_statements(p, q) && x.as_str() == y.as_str(),
            (
                StatementNode::While {
                    name: x,
                    condition: a,
                    body: p,
                },
                StatementNode::While {
                    name: y,
                    condition: b,
                    body: q,
                },
            ) => a.same(b) && same_statements(p, q) && same_name(x, y),
            (
                StatementNode::Fork {
                    variable: x,
                    delay: a,
                    body: p,
                },
                StatementNode::Fork {
                    variable: y,
                    delay: b,
                    body: q,
                },
            ) => a.same(b) && same_statements(p, q) && same_name(x, y),
            (
                StatementNode::TryExcept { body: p, arms: a },
                StatementNode::TryExcept { body: q, arms: b },
            ) => same_statements(p, q) && same_arms(a, b),
            (
                StatementNode::TryFinally {
                    body: p,
                    cleanup: a,
                },
                StatementNode::TryFinally {
                    body: q,
                    cleanup: b,
                },
            ) => same_statements(p, q) && same_statements(a, b),
            (StatementNode::Break(x), StatementNode::Break(y))
            | (StatementNode::Continue(x), StatementNode::Continue(y)) => same_name(x, y),
            _ => false,
        }
    }
}

impl Branch {
    /// Whether two branches are the same.
    #[tactic(auto, using(crate::proofs::Sameness::equal_statements))]
    #[cycle(same_statement)]
    pub fn same(&self, other: &Branch) -> bool
        ensures { IsTrue result ↔ branch_of self.now ≡ branch_of other.now }
    {
        self.condition.same(&other.condition) && same_statements(&self.body, &other.body)
    }
}

impl Arm {
    /// Whether two handlers are the same.
    #[tactic(auto, using(crate::proofs::Sameness::equal_statements))]
    #[cycle(same_statement)]
    pub fn same(&self, other: &Arm) -> bool
        ensures { IsTrue result ↔ arm_of self.now ≡ arm_of other.now }
    {
        same_name(&self.variable, &other.variable)
            && self.codes.same(&other.codes)
            && same_statements(&self.body, &other.body)
    }
}

fn same_name(x: &Option<Text>, y: &Option<Text>) -> bool
    ensures { IsTrue result ↔ x.now ≡ y.now }
{
    match (x, y) {
        (None, None) => true,
        (Some(x), Some(y)) => x.as_str() == y.as_str(),
        _ => false,
    }
}

#[cycle(same_statement)]
fn same_statements(xs: &[Statement], ys: &[Statement]) -> bool
    ensures { IsTrue result ↔ xs.now ≡ ys.now }
{
    if xs.len() != ys.len() {
        return false;
    }
    for i in 0..xs.len() {
        if !xs[i].same(&ys[i]) {
            return false;
        }
    }
    true
}

#[cycle(same_statement)]
fn same_branches(xs: &[Branch], ys: &[Branch]) -> bool
    ensures { IsTrue result ↔ map branch_of xs.now ≡ map branch_of ys.now }
{
    if xs.len() != ys.len() {
        return false;
    }
    for i in 0..xs.len() {
        if !xs[i].same(&ys[i]) {
            return false;
        }
    }
    true
}

#[cycle(same_statement)]
fn same_arms(xs: &[Arm], ys: &[Arm]) -> bool
    ensures { IsTrue result ↔ map arm_of xs.now ≡ map arm_of ys.now }
{
    if xs.len() != ys.len() {
        return false;
    }
    for i in 0..xs.len() {
        if !xs[i].same(&ys[i]) {
            return false;
        }
    }
    true
}
