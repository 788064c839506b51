//! Drafts of the expressions and targets that are made of some operands. What comes last is put first.
ghost use Rattle.std.specs.Prelude.{◌≡◌, OnOk};
ghost use Rattle.spec_program.specs.Tree.{unary, conditional as conditional_tree, index as index_tree, range as range_tree, assignment as assignment_tree, to_index, to_range};
ghost use Rattle.spec_program.specs.Construct.{of_expr};
ghost use Rattle.moo_code.specs.Layout.{stop, inner, own as own_layout, above, plain, expr_layout, target_layout};
ghost use Rattle.moo_value.specs.Operators.{unary_of};
ghost use Rattle.moo_program.specs.Drafting.{around_of, operation_of, parts_of, state, over};

use crate::moo_bytecode::around::{Around, Bracketed, next};
use crate::moo_bytecode::draft::Draft;
use crate::moo_bytecode::draft_expression::height;
use crate::moo_bytecode::operation::Operation;
use moo_tree::expression::{Expression, Target};
use moo_value::operator::UnaryOperator;
use std::alloc::AllocError;

impl<'a> Draft<'a> {
    /// An operator in front of an operand.
    #[cycle(expression)]
    pub(crate) fn of_one(
        &mut self,
        around: Around<'a, '_>,
        operator: UnaryOperator,
        operand: &'a Expression,
    ) -> Result<(), AllocError>
        ensures { OnOk result (state self.new ≡ over (expr_layout (around_of around.entry) (unary (unary_of operator) operand.now)) (state self.old)) }
    {
        self.own(Operation::Unary(operator))?;
        self.operand(around.above(0)?, operand)
    }

    /// What an operation makes of two operands.
    #[cycle(expression)]
    pub(crate) fn of_two(
        &mut self,
        around: Around<'a, '_>,
        operation: Operation<'a>,
        left: &'a Expression,
        right: &'a Expression,
    ) -> Result<(), AllocError>
        ensures { OnOk result (state self.new ≡ over (inner (plain (of_expr left.now)) (expr_layout (above (around_of around.entry) 0) left.now)
            (inner (plain (of_expr right.now)) (expr_layout (above (around_of around.entry) 1) right.now)
            (own_layout (operation_of operation.entry) (parts_of operation.entry) stop))) (state self.old)) }
    {
        self.own(operation)?;
        self.two_operands(around, left, right)
    }

    /// Two operands, one above the other.
    #[cycle(expression)]
    pub(crate) fn two_operands(
        &mut self,
        around: Around<'a, '_>,
        left: &'a Expression,
        right: &'a Expression,
    ) -> Result<(), AllocError>
        ensures { OnOk result (state self.new ≡ over (inner (plain (of_expr left.now)) (expr_layout (above (around_of around.entry) 0) left.now)
            (inner (plain (of_expr right.now)) (expr_layout (above (around_of around.entry) 1) right.now) stop)) (state self.old)) }
    {
        self.operand(around.above(1)?, right)?;
        self.operand(around.above(0)?, left)
    }

    /// Two operands, of which the first may decide.
    #[cycle(expression)]
    pub(crate) fn deciding(
        &mut self,
        around: Around<'a, '_>,
        operation: Operation<'a>,
        left: &'a Expression,
        right: &'a Expression,
    ) -> Result<(), AllocError>
        ensures { OnOk result (state self.new ≡ over (inner (plain (of_expr left.now)) (expr_layout (above (around_of around.entry) 0) left.now)
            (own_layout (operation_of operation.entry) (parts_of operation.entry)
            (inner (plain (of_expr right.now)) (expr_layout (above (around_of around.entry) 0) right.now) stop))) (state self.old)) }
    {
        self.operand(around.above(0)?, right)?;
        self.own(operation)?;
        self.operand(around.above(0)?, left)
    }

    /// A choice between two expressions.
    #[cycle(expression)]
    pub(crate) fn conditional(
        &mut self,
        around: Around<'a, '_>,
        condition: &'a Expression,
        first: &'a Expression,
        second: &'a Expression,
    ) -> Result<(), AllocError>
        ensures { OnOk result (state self.new ≡ over (expr_layout (around_of around.entry) (conditional_tree condition.now first.now second.now)) (state self.old)) }
    {
        self.operand(around.above(0)?, second)?;
        self.own(Operation::Chosen)?;
        self.deciding(around, Operation::Choose, condition, first)
    }

    /// An index.
    #[cycle(expression)]
    pub(crate) fn index(
        &mut self,
        around: Around<'a, '_>,
        whole: &'a Expression,
        index: &'a Expression,
    ) -> Result<(), AllocError>
        ensures { OnOk result (state self.new ≡ over (expr_layout (around_of around.entry) (index_tree whole.now index.now)) (state self.old)) }
    {
        let bracketed = Bracketed::Operand(around.height);
        self.own(Operation::TakeItem)?;
        self.operand(around.in_brackets(1, bracketed)?, index)?;
        self.operand(around.above(0)?, whole)
    }

    /// A range.
    #[cycle(expression)]
    pub(crate) fn range(
        &mut self,
        around: Around<'a, '_>,
        whole: &'a Expression,
        first: &'a Expression,
        last: &'a Expression,
    ) -> Result<(), AllocError>
        ensures { OnOk result (state self.new ≡ over (expr_layout (around_of around.entry) (range_tree whole.now first.now last.now)) (state self.old)) }
    {
        let bracketed = Bracketed::Operand(around.height);
        self.own(Operation::TakeRange)?;
        self.operand(around.in_brackets(2, bracketed)?, last)?;
        self.operand(around.in_brackets(1, bracketed)?, first)?;
        self.operand(around.above(0)?, whole)
    }

    /// An assignment.
    #[cycle(expression)]
    pub(crate) fn assignment(
        &mut self,
        around: Around<'a, '_>,
        target: &'a Target,
        value: &'a Expression,
    ) -> Result<(), AllocError>
        ensures { OnOk result (state self.new ≡ over (expr_layout (around_of around.entry) (assignment_tree target.now value.now)) (state self.old)) }
    {
        self.own(Operation::Store(target))?;
        self.operand(around.above(height(target)?)?, value)?;
        self.target_part(around.above(0)?, target)
    }

    /// A target that is an item of another one.
    #[cycle(expression)]
    pub(crate) fn indexed_target(
        &mut self,
        around: Around<'a, '_>,
        within: &'a Target,
        index: &'a Expression,
    ) -> Result<(), AllocError>
        ensures { OnOk result (state self.new ≡ over (target_layout (around_of around.entry) (to_index within.now index.now)) (state self.old)) }
    {
        let bracketed = Bracketed::Target(within, around.height);
        let below = height(within)?;
        self.operand(around.in_brackets(below, bracketed)?, index)?;
        self.target_part(around.above(0)?, within)
    }

    /// A target that is a range of another one.
    #[cycle(expression)]
    pub(crate) fn ranged_target(
        &mut self,
        around: Around<'a, '_>,
        within: &'a Target,
        first: &'a Expression,
        last: &'a Expression,
    ) -> Result<(), AllocError>
        ensures { OnOk result (state self.new ≡ over (target_layout (around_of around.entry) (to_range within.now first.now last.now)) (state self.old)) }
    {
        let bracketed = Bracketed::Target(within, around.height);
        let below = height(within)?;
        self.operand(around.in_brackets(next(below)?, bracketed)?, last)?;
        self.operand(around.in_brackets(below, bracketed)?, first)?;
        self.target_part(around.above(0)?, within)
    }
}
