//! What begins a statement behind its first word.

ghost use Rattle.std.specs.Prelude.{◌≡◌, false, IfOk};
ghost use Rattle.spec_program.specs.Frames as f;
ghost use Rattle.spec_program.specs.Frames.{a_statement, push};
ghost use Rattle.spec_reader.specs.Next.{goes, reads_block, reads_branches, reads_expression};
ghost use Rattle.spec_reader.specs.Begins as meant;
ghost use Rattle.reader_frames.specs.LeftView.{left_of};
ghost use Rattle.reader_frames.specs.FrameViews.{all_begun, within_statement};
ghost use Rattle.reader_frames.specs.StateView.{state_of};

use crate::leaving::perhaps_name;
use moo_reader::statement::returned_zero;
use moo_reader::text::lower_case;
use moo_token::token::{Keyword, Sign};
use moo_value::text::Text;
use reader_frames::begun::Begun;
use reader_frames::ends::head_begins;
use reader_frames::frame::{
    BlockFrame, BranchesFrame, ExpressionFrame, Frame, Head, WithinStatement,
};
use reader_frames::left::Left;
use reader_frames::state::{Next, Part, State, begin, stuck};
use std::alloc::{AllocError, Global};

/// An expression that is a part of a statement.
pub fn part_begins(
    within: WithinStatement,
    begun: Box<Begun>,
    left: Left,
) -> Result<State, AllocError>
    ensures { IfOk result (λ s. state_of s ≡ goes (reads_expression false 0 (push (within_statement within) (all_begun begun.value a_statement)))
        (left_of left)) }
{
    let begun = begin(begun, Frame::Expression(ExpressionFrame::Statement(within)))?;
    let next = Next::Expression {
        brackets: false,
        level: 0,
    };
    Ok(State { next, begun, left })
}

/// Behind `if`.
pub fn if_begins(line: u64, begun: Box<Begun>, left: Left) -> Result<State, AllocError>
    ensures { IfOk result (λ s. state_of s ≡ goes (reads_branches (push (f.branches_of line) (all_begun begun.value a_statement))) (left_of left)) }
{
    let begun = begin(begun, Frame::Branches(BranchesFrame::If { line }))?;
    let next = Next::Branches;
    Ok(State { next, begun, left })
}

// Behind `for x in`.
fn for_in(
    alloc: Global,
    line: u64,
    variable: Text,
    begun: Box<Begun>,
    mut left: Left,
) -> Result<State, AllocError>
    ensures { IfOk result (λ s. state_of s ≡ meant.for_in line variable (all_begun begun.value a_statement) (left_of left)) }
{
    if left.take_sign(Sign::OpenBracket) {
        let within = WithinStatement::RangeFirst { line, variable };
        return part_begins(within, begun, left);
    }
    head_begins(alloc, line, Head::For(variable), begun, left)
}

// Behind `for x`.
fn for_named(
    alloc: Global,
    line: u64,
    variable: Text,
    begun: Box<Begun>,
    mut left: Left,
) -> Result<State, AllocError>
    ensures { IfOk result (λ s. state_of s ≡ meant.for_named line variable (all_begun begun.value a_statement) (left_of left)) }
{
    if !left.take_keyword(Keyword::In) {
        return Ok(stuck(begun, left));
    }
    for_in(alloc, line, variable, begun, left)
}

/// Behind `for`.
pub fn for_begins(
    alloc: Global,
    line: u64,
    begun: Box<Begun>,
    mut left: Left,
) -> Result<State, AllocError>
    ensures { IfOk result (λ s. state_of s ≡ meant.for_begins line (all_begun begun.value a_statement) (left_of left)) }
{
    let Some(word) = left.take_word()? else {
        return Ok(stuck(begun, left));
    };
    let variable = lower_case(alloc, &word.text)?;
    for_named(alloc, line, variable, begun, left)
}

/// Behind `while`.
#[tactic(auto, using(crate::proofs::Words::while_by_name))]
pub fn while_begins(
    alloc: Global,
    line: u64,
    begun: Box<Begun>,
    mut left: Left,
) -> Result<State, AllocError>
    ensures { IfOk result (λ s. state_of s ≡ meant.while_begins line (all_begun begun.value a_statement) (left_of left)) }
{
    let name = perhaps_name(alloc, &mut left)?;
    head_begins(alloc, line, Head::While(name), begun, left)
}

/// Behind `fork`.
#[tactic(auto, using(crate::proofs::Words::fork_by_name))]
pub fn fork_begins(
    alloc: Global,
    line: u64,
    begun: Box<Begun>,
    mut left: Left,
) -> Result<State, AllocError>
    ensures { IfOk result (λ s. state_of s ≡ meant.fork_begins line (all_begun begun.value a_statement) (left_of left)) }
{
    let name = perhaps_name(alloc, &mut left)?;
    head_begins(alloc, line, Head::Fork(name), begun, left)
}

/// Behind `try`.
pub fn try_begins(line: u64, begun: Box<Begun>, left: Left) -> Result<State, AllocError>
    ensures { IfOk result (λ s. state_of s ≡ goes (reads_block (push (f.tried line) (all_begun begun.value a_statement))) (left_of left)) }
{
    let begun = begin(begun, Frame::Block(BlockFrame::Tried { line }))?;
    let next = Next::Block;
    Ok(State { next, begun, left })
}

/// Behind `return`.
pub fn return_begins(
    alloc: Global,
    line: u64,
    begun: Box<Begun>,
    mut left: Left,
) -> Result<State, AllocError>
    ensures { IfOk result (λ s. state_of s ≡ meant.return_begins line (all_begun begun.value a_statement) (left_of left)) }
{
    if left.take_sign(Sign::Semicolon) {
        let statement = returned_zero(alloc, line)?;
        let next = Next::Found(Part::Statement(Box::new(alloc, statement)?));
        return Ok(State { next, begun, left });
    }
    part_begins(WithinStatement::Returned { line }, begun, left)
}
