//! Drafts of expressions. What comes last is put first.
ghost use Rattle.std.specs.Prelude.{◌≡◌, OnOk, IfOk};
ghost use Rattle.spec_program.specs.Construct.{of_expr, of_target};
ghost use Rattle.spec_program.specs.Place.{arity};
ghost use Rattle.moo_code.specs.Layout.{stop, inner, opens as opens_of, plain, expr_layout, target_layout};
ghost use Rattle.moo_program.specs.Drafting.{around_of, reception_of, caught_of, state, over};
ghost use Rattle.moo_program.specs.Expressions.{link_to};

use crate::moo_bytecode::around::{Around, Bracketed, next};
use crate::moo_bytecode::draft::Draft;
use crate::moo_bytecode::operation::{Caught, Operation, Reception};
use moo_tree::expression::{Expression, ExpressionNode, Target, TargetNode};
use std::alloc::AllocError;

// Whether an expression's code begins with an empty list.
fn opens(expression: &Expression) -> bool
    ensures { result ≡ opens_of (of_expr expression.now) }
{
    matches!(
        &expression.node,
        ExpressionNode::List(_) | ExpressionNode::Call(_, _)
    )
}

/// How many values a target's parts leave.
pub(crate) fn height(target: &Target) -> Result<usize, AllocError>
    ensures { IfOk result (λ n. n ≡ arity target.now) }
{
    match &target.node {
        TargetNode::Variable(_) => Ok(0),
        TargetNode::Property(_, _) => Ok(2),
        TargetNode::Index(target, _) => next(height(target)?),
        TargetNode::Range(target, _, _) => next(next(height(target)?)?),
    }
}

impl<'a> Draft<'a> {
    /// An expression.
    #[cycle(expression)]
    pub fn expression(
        &mut self,
        around: Around<'a, '_>,
        expression: &'a Expression,
    ) -> Result<(), AllocError>
        ensures { OnOk result (state self.new ≡ over (expr_layout (around_of around.entry) expression.now) (state self.old)) }
    {
        match &expression.node {
            ExpressionNode::Literal(value) => self.own(Operation::Push(value)),
            ExpressionNode::Variable(name) => self.own(Operation::Load(name)),
            ExpressionNode::OwnLength => self.own(Operation::LengthOf(around.bracketed)),
            ExpressionNode::Unary(operator, a) => self.of_one(around, *operator, a),
            ExpressionNode::Binary(operator, a, b) => {
                self.of_two(around, Operation::Binary(*operator), a, b)
            }
            ExpressionNode::Both(a, b) => self.deciding(around, Operation::AndThen, a, b),
            ExpressionNode::Either(a, b) => self.deciding(around, Operation::OrElse, a, b),
            ExpressionNode::Conditional(condition, a, b) => {
                self.conditional(around, condition, a, b)
            }
            ExpressionNode::Property(object, name) => {
                self.of_two(around, Operation::ReadProperty, object, name)
            }
            ExpressionNode::Index(whole, index) => self.index(around, whole, index),
            ExpressionNode::Range(whole, first, last) => self.range(around, whole, first, last),
            ExpressionNode::Assignment(target, value) => self.assignment(around, target, value),
            ExpressionNode::List(items) => {
                self.argument_list(around, Operation::MakeList, items)
            }
            ExpressionNode::Call(name, arguments) => {
                self.argument_list(around, Operation::CallFunction(name), arguments)
            }
            ExpressionNode::VerbCall(object, name, arguments) => {
                self.verb_call(around, object, name, arguments)
            }
            ExpressionNode::Catch(value, codes, fallback) => {
                self.caught_expression(around, value, codes, fallback)
            }
            ExpressionNode::Scatter(items, value) => self.scatter(around, items, value),
        }
    }

    /// An expression as a part whose value is an operand.
    #[cycle(expression)]
    pub fn operand(
        &mut self,
        around: Around<'a, '_>,
        expression: &'a Expression,
    ) -> Result<(), AllocError>
        ensures { OnOk result (state self.new ≡ over (inner (plain (of_expr expression.now)) (expr_layout (around_of around.entry) expression.now) stop) (state self.old)) }
    {
        self.part(around, expression, Reception::Straight, None)
    }

    /// An expression as a part.
    #[cycle(expression)]
    pub fn part(
        &mut self,
        around: Around<'a, '_>,
        expression: &'a Expression,
        reception: Reception,
        caught: Option<Caught<'a>>,
    ) -> Result<(), AllocError>
        ensures { OnOk result (state self.new ≡ over (inner (link_to (of_expr expression.now) (reception_of reception) (caught_of caught.entry)) (expr_layout (around_of around.entry) expression.now) stop) (state self.old)) }
    {
        self.close(reception, caught)?;
        let mark = self.mark();
        self.expression(around, expression)?;
        self.open(opens(expression), mark)?;
        Ok(())
    }

    // A target.
    #[cycle(expression)]
    fn target(&mut self, around: Around<'a, '_>, target: &'a Target) -> Result<(), AllocError>
        ensures { OnOk result (state self.new ≡ over (target_layout (around_of around.entry) target.now) (state self.old)) }
    {
        match &target.node {
            TargetNode::Variable(_) => Ok(()),
            TargetNode::Property(object, name) => self.two_operands(around, object, name),
            TargetNode::Index(target, index) => self.indexed_target(around, target, index),
            TargetNode::Range(target, first, last) => {
                self.ranged_target(around, target, first, last)
            }
        }
    }

    /// A target as a part.
    #[cycle(expression)]
    pub(crate) fn target_part(
        &mut self,
        around: Around<'a, '_>,
        target: &'a Target,
    ) -> Result<(), AllocError>
        ensures { OnOk result (state self.new ≡ over (inner (plain (of_target target.now)) (target_layout (around_of around.entry) target.now) stop) (state self.old)) }
    {
        self.close(Reception::Straight, None)?;
        let mark = self.mark();
        self.target(around, target)?;
        self.open(false, mark)?;
        Ok(())
    }
}
