//! Drafts of statements and programs. What comes last is put first.
ghost use Rattle.std.specs.Prelude.{◌≡◌, ◌<◌, ◌≤◌, ◌∷◌, suc, map, true, OnOk, IfOk};
ghost use Rattle.spec_program.specs.Construct.{of_statement, of_program};
ghost use Rattle.spec_program.specs.Tree.{else_do};
ghost use Rattle.moo_tree.specs.StatementView.{program_of, branches_of, branch_of};
ghost use Rattle.moo_code.specs.Layout.{stop, inner, straight, plain, statement_layout, program_layout, branches_layout, otherwise_layout, loops_left as loops_left_of};
ghost use Rattle.moo_program.specs.Drafting.{around_of, name_of, caught_of, state, over};
ghost use Rattle.moo_program.specs.Expressions.{link_to};
ghost use Rattle.moo_program.specs.Branches.{otherwise_if};

use crate::moo_bytecode::around::{Around, next, plus};
use crate::moo_bytecode::draft::Draft;
use crate::moo_bytecode::operation::{Caught, Operation, Reception, Sign};
use moo_tree::statement::{Branch, Statement, StatementNode};
use moo_value::text::Text;
use std::alloc::{AllocError, Global};

// How many loops `break` or `continue` leaves before the one that it means.
#[tactic(auto, using(crate::proofs::StatementRows::loop_next))]
fn loops_left(name: &Option<Text>, loops: &[Option<&Text>]) -> usize
    ensures { result ≡ loops_left_of name.now (map name_of loops.now) }
{
    let Some(name) = name else {
        return 0;
    };
    for i in 0..loops.len() {
        if let Some(known) = loops[i] {
            if name.as_str() == known.as_str() {
                return i;
            }
        }
    }
    loops.len()
}

// The loops with one more inside.
fn with_loop<'a>(
    alloc: Global,
    name: Option<&'a Text>,
    loops: &[Option<&'a Text>],
) -> Result<Vec<Option<&'a Text>>, AllocError>
    ensures { IfOk result (λ v. v.items ≡ name.entry ∷ loops.now) }
{
    let mut inside = Vec::new(alloc);
    inside.push(name)?;
    inside.extend_from_slice(loops)?;
    Ok(inside)
}

// Whether something follows the branch with a number, of so many: another one, or what follows them all.
fn goes_on(followed: bool, number: usize, count: usize) -> bool
    requires { number < count }
    ensures more { suc number < count → result ≡ true }
    ensures last { count ≤ suc number → result ≡ followed }
{
    followed || number + 1 < count
}

impl<'a> Draft<'a> {
    /// A program: its statements.
    #[tactic(auto, using(crate::proofs::StatementRows::statement_next))]
    #[cycle(statement)]
    pub fn program(
        &mut self,
        alloc: Global,
        around: Around<'a, '_>,
        statements: &'a [Statement],
    ) -> Result<(), AllocError>
        ensures { OnOk result (state self.new ≡ over (program_layout (around_of around.entry) (program_of statements.now)) (state self.old)) }
    {
        for i in (0..statements.len()).rev() {
            self.statement_part(alloc, around.above(0)?, &statements[i])?;
        }
        Ok(())
    }

    // A statement as a part.
    #[cycle(statement)]
    fn statement_part(
        &mut self,
        alloc: Global,
        around: Around<'a, '_>,
        statement: &'a Statement,
    ) -> Result<(), AllocError>
        ensures { OnOk result (state self.new ≡ over (inner (plain (of_statement statement.now)) (statement_layout (around_of around.entry) statement.now) stop) (state self.old)) }
    {
        self.close(Reception::Straight, None)?;
        let mark = self.mark();
        self.statement(alloc, around, statement)?;
        self.open(false, mark)?;
        Ok(())
    }

    /// A program as a part.
    #[cycle(statement)]
    pub(crate) fn program_part(
        &mut self,
        alloc: Global,
        around: Around<'a, '_>,
        statements: &'a [Statement],
        caught: Option<Caught<'a>>,
    ) -> Result<(), AllocError>
        ensures { OnOk result (state self.new ≡ over (inner (link_to (of_program (program_of statements.now)) straight (caught_of caught.entry)) (program_layout (around_of around.entry) (program_of statements.now)) stop) (state self.old)) }
    {
        self.close(Reception::Straight, caught)?;
        let mark = self.mark();
        self.program(alloc, around, statements)?;
        self.open(false, mark)?;
        Ok(())
    }

    // A statement.
    #[cycle(statement)]
    fn statement(
        &mut self,
        alloc: Global,
        around: Around<'a, '_>,
        statement: &'a Statement,
    ) -> Result<(), AllocError>
        ensures { OnOk result (state self.new ≡ over (statement_layout (around_of around.entry) statement.now) (state self.old)) }
    {
        match &statement.node {
            StatementNode::Evaluate(value) => {
                self.own(Operation::Pop)?;
                self.operand(around.above(0)?, value)
            }
            StatementNode::Return(Some(value)) => {
                self.own(Operation::Return)?;
                self.operand(around.above(0)?, value)
            }
            StatementNode::Return(None) => self.own(Operation::ReturnZero),
            StatementNode::ForEach {
                variable,
                list,
                body,
            } => {
                let loops = with_loop(alloc, Some(variable), around.loops)?;
                let caught = Caught {
                    height: around.height,
                    held: 2,
                    sign: Sign::Loop,
                };
                self.own(Operation::NextItem(variable))?;
                self.program_part(alloc, around.in_body(2, &loops)?, body, Some(caught))?;
                self.own(Operation::FirstItem(variable))?;
                self.operand(around.in_body(0, &loops)?, list)
            }
            StatementNode::ForRange {
                variable,
                first,
                last,
                body,
            } => {
                let loops = with_loop(alloc, Some(variable), around.loops)?;
                let caught = Caught {
                    height: around.height,
                    held: 2,
                    sign: Sign::Loop,
                };
                self.own(Operation::NextOfRange(variable))?;
                self.program_part(alloc, around.in_body(2, &loops)?, body, Some(caught))?;
                self.own(Operation::FirstOfRange(variable))?;
                self.operand(around.in_body(1, &loops)?, last)?;
                self.operand(around.in_body(0, &loops)?, first)
            }
            StatementNode::While {
                name,
                condition,
                body,
            } => {
                let loops = with_loop(alloc, name.as_ref(), around.loops)?;
                let caught = Caught {
                    height: around.height,
                    held: 0,
                    sign: Sign::Loop,
                };
                self.own(Operation::Begin(0, 0, 1))?;
                self.program_part(alloc, around.in_body(0, &loops)?, body, Some(caught))?;
                self.own(Operation::TestLoop)?;
                self.operand(around.in_body(0, &loops)?, condition)?;
                self.own(Operation::BeginFirst)
            }
            StatementNode::Fork {
                variable,
                delay,
                body,
            } => {
                self.gap()?;
                self.own(Operation::StartFork(variable.as_ref(), body))?;
                self.operand(around.above(0)?, delay)
            }
            StatementNode::TryFinally { body, cleanup } => {
                let caught = Caught {
                    height: around.height,
                    held: 0,
                    sign: Sign::Finally,
                };
                self.own(Operation::EndFinally)?;
                self.program_part(alloc, around.above(1)?, cleanup, None)?;
                self.own(Operation::FinishBody)?;
                self.program_part(alloc, around.above(0)?, body, Some(caught))?;
                self.own(Operation::BeginFirst)
            }
            StatementNode::Break(name) => {
                self.own(Operation::LeaveLoops(loops_left(name, around.loops)))
            }
            StatementNode::Continue(name) => {
                self.own(Operation::ContinueLoops(loops_left(name, around.loops)))
            }
            StatementNode::If {
                branches,
                otherwise: None,
            } => self.if_branches(alloc, around, branches, false),
            StatementNode::If {
                branches,
                otherwise: Some(body),
            } => self.if_with_else(alloc, around, branches, body),
            StatementNode::TryExcept { body, arms } => self.try_except(alloc, around, body, arms),
        }
    }

    // The branches of an `if`, with an `else` after them or none.
    #[cycle(statement)]
    fn if_branches(
        &mut self,
        alloc: Global,
        around: Around<'a, '_>,
        branches: &'a [Branch],
        followed: bool,
    ) -> Result<(), AllocError>
        ensures { OnOk result (state self.new ≡ over (branches_layout (around_of around.entry) true 1 (branches_of branches.now) (otherwise_if followed) stop) (state self.old)) }
    {
        for i in (0..branches.len()).rev() {
            let part = next(plus(i, i)?)?;
            let more = goes_on(followed, i, branches.len());
            self.if_branch(alloc, around, i == 0, part, more, &branches[i])?;
        }
        Ok(())
    }

    // The branches of an `if`, and its `else`.
    #[tactic(auto, using(crate::proofs::StatementRows::branches_over))]
    #[cycle(statement)]
    fn if_with_else(
        &mut self,
        alloc: Global,
        around: Around<'a, '_>,
        branches: &'a [Branch],
        body: &'a [Statement],
    ) -> Result<(), AllocError>
        ensures { OnOk result (state self.new ≡ over (branches_layout (around_of around.entry) true 1 (branches_of branches.now) (else_do (program_of body.now)) (otherwise_layout (around_of around.entry) (else_do (program_of body.now)))) (state self.old)) }
    {
        self.program_part(alloc, around.above(0)?, body, None)?;
        self.if_branches(alloc, around, branches, true)?;
        Ok(())
    }

    // A branch whose condition is the part with a number: whether it is the first one, and whether something follows.
    #[cycle(statement)]
    fn if_branch(
        &mut self,
        alloc: Global,
        around: Around<'a, '_>,
        first: bool,
        part: usize,
        followed: bool,
        branch: &'a Branch,
    ) -> Result<(), AllocError>
        ensures { OnOk result (state self.new ≡ over (branches_layout (around_of around.entry) first part (branch_of branch.now) (otherwise_if followed) stop) (state self.old)) }
    {
        let body = next(part)?;
        self.own(Operation::Finish(0))?;
        self.program_part(alloc, around.above(0)?, &branch.body, None)?;
        self.own(if followed {
            Operation::Test(first, body)
        } else {
            Operation::TestLast(first, body)
        })?;
        self.operand(around.above(0)?, &branch.condition)
    }
}
