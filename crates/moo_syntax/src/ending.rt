//! What a reader's end says of the text.

ghost use Rattle.std.specs.Prelude.{◌≡◌, List, Some};
ghost use Rattle.spec_program.specs.Tokens.{Placed as Meant};
ghost use Rattle.spec_program.specs.Reading.{got};
ghost use Rattle.spec_program.specs.ReadPrograms as by;
ghost use Rattle.spec_reader.specs.Work.{is_whole, is_over};
ghost use Rattle.spec_reader.specs.Whole.{come_out, outcome};
ghost use Rattle.moo_token.specs.Views.{ending_of};
ghost use Rattle.moo_token.specs.Meaning.{fault_meant, ending_meant};
ghost use Rattle.moo_reader.specs.BlockViews.{block_found};
ghost use Rattle.reader_frames.specs.LeftView.{left_of};
ghost use Rattle.reader_frames.specs.FrameViews.{all_begun};
ghost use Rattle.reader_frames.specs.StateView.{next_of, state_of};
ghost use Rattle.spec_program.specs.Frames.{a_block};
ghost use Rattle.syntax_fault.specs.Meaning.{kind_meant, IsFault};
ghost use Rattle.moo_syntax.specs.Answer.{IsAnswer, is_end, got_or_stuck};
ghost use Rattle.moo_syntax.specs.Given.{next_line, block_if};
ghost use Rattle.moo_syntax.specs.Ends.{part_block, block_in, over_by};

use crate::answer::tested;
use moo_reader::block::Block;
use moo_token::fault::{FaultKind as TokenFaultKind, TokenFault};
use moo_token::token::Placed;
use moo_tree::statement::Tree;
use reader_frames::begun::Begun;
use reader_frames::left::Left;
use reader_frames::state::{Next, Part, State};
use std::collections::VecDeque;
use syntax_fault::fault::{FaultKind, SyntaxFault};

fn kind_of(kind: TokenFaultKind) -> FaultKind
    ensures { kind_meant result ≡ Some (fault_meant kind) }
{
    match kind {
        TokenFaultKind::Character => FaultKind::Character,
        TokenFaultKind::Unclosed => FaultKind::Unclosed,
        TokenFaultKind::Number => FaultKind::Number,
    }
}

fn next_line(tokens: &VecDeque<Placed>) -> Option<u64>
    ensures { result ≡ next_line tokens.now.items }
{
    match tokens.front() {
        Some(placed) => Some(placed.line),
        None => None,
    }
}

// The fault where no token is left: that of the text, or the end.
#[tactic(auto, using(crate::proofs::Ended::bad_ending, crate::proofs::Ended::no_ending))]
fn fault_at_end(fault: Option<TokenFault>, last: u64) -> SyntaxFault
    ensures { (all : List Meant) → by.last_line all ≡ last → IsFault result (by.fault_at all (ending_meant (ending_of fault))) }
{
    match fault {
        Some(fault) => SyntaxFault {
            kind: kind_of(fault.kind),
            line: fault.line,
        },
        None => SyntaxFault {
            kind: FaultKind::Token,
            line: last,
        },
    }
}

// The fault of the next token: one that is none has its own, any other fits nothing, and the end of the text has the line of the last one.
#[tactic(auto, using(crate::proofs::Ended::at_token, crate::proofs::Ended::at_ending))]
fn fault_at(left: &Left, last: u64) -> SyntaxFault
    ensures { (all : List Meant) → by.last_line all ≡ last → IsFault result (by.fault_at all (left_of left.now)) }
{
    match next_line(&left.rest.tokens) {
        Some(line) => SyntaxFault {
            kind: FaultKind::Token,
            line,
        },
        None => fault_at_end(left.rest.fault, last),
    }
}

fn is_at_end(left: &Left) -> bool
    ensures { result ≡ is_end (left_of left.now) }
{
    left.rest.tokens.is_empty() && left.rest.fault.is_none()
}

// Whether a block that is found is the whole text.
#[tactic(auto, using(crate::proofs::EndsTell::whole_by_frame))]
fn is_whole(begun: &Box<Begun>) -> bool
    ensures { result ≡ is_whole (all_begun begun.now.value a_block) }
{
    !begun.begins_block()
}

fn over_by(next: &Next, whole: bool) -> bool
    ensures { result ≡ over_by next.now whole }
{
    match next {
        Next::Found(Part::Block(_)) => whole,
        Next::Sticks => true,
        _ => false,
    }
}

/// Whether the reader has come to its end: it found the whole text, or no program goes on.
#[tactic(auto, using(crate::proofs::EndsTell::over_is))]
pub fn is_over(state: &State) -> bool
    ensures { result ≡ is_over (next_of state.now.next state.now.begun.value) }
{
    over_by(&state.next, is_whole(&state.begun))
}

fn discard_part(_part: Part) {}

// What was to be read next is let go of.
fn discard(next: Next) {
    match next {
        Next::Found(part) => discard_part(part),
        _ => {}
    }
}

fn part_block(part: Part) -> Option<Block>
    ensures { block_if result ≡ part_block part }
{
    match part {
        Part::Block(block) => Some(Box::into_inner(block)),
        other => {
            discard_part(other);
            None
        }
    }
}

fn block_in(next: Next) -> Option<Block>
    ensures { block_if result ≡ block_in next }
{
    match next {
        Next::Found(part) => part_block(part),
        other => {
            discard(other);
            None
        }
    }
}

// The block of the whole text, if that was found.
#[tactic(auto, using(crate::proofs::EndsTell::text_whole, crate::proofs::EndsTell::text_not_whole))]
fn whole_block(next: Next, begun: &Box<Begun>) -> Option<Block>
    ensures { (ts : List Meant) → come_out (next_of next begun.now.value) ts ≡ got_or_stuck (block_if result) ts }
{
    if is_whole(begun) {
        block_in(next)
    } else {
        discard(next);
        None
    }
}

// What comes of a text that begins with this block.
#[tactic(auto, using(crate::proofs::Ended::at_the_end, crate::proofs::Ended::before_the_end))]
fn block_answer(block: Block, left: &Left, last: u64) -> Result<Tree, SyntaxFault>
    ensures { (all : List Meant) → by.last_line all ≡ last → IsAnswer result (by.parsed_by all (got (block_found block) (left_of left.now))) }
{
    if is_at_end(left) {
        tested(block)
    } else {
        Err(fault_at(left, last))
    }
}

/// What comes of a text whose reader has ended here. The line of its last token is handed in.
#[tactic(auto, using(crate::proofs::Ended::block_came_out, crate::proofs::Ended::nothing_came_out))]
pub fn answer(state: State, last: u64) -> Result<Tree, SyntaxFault>
    ensures { (all : List Meant) → by.last_line all ≡ last → IsAnswer result (outcome all (state_of state)) }
{
    let State { next, begun, left } = state;
    match whole_block(next, &begun) {
        Some(block) => block_answer(block, &left, last),
        None => Err(fault_at(&left, last)),
    }
}
