//! What several constructs begin with.

ghost use Rattle.std.specs.Prelude.{◌≡◌, ◌∷◌, IfOk};
ghost use Rattle.spec_reader.specs.Next.{goes, stops, reads_expression};
ghost use Rattle.moo_token.specs.Views.{place_of};
ghost use Rattle.moo_token.specs.Meaning.{place_meant};
ghost use Rattle.reader_frames.specs.LeftView.{left_of};
ghost use Rattle.reader_frames.specs.FrameViews.{all_begun, expression_begun};
ghost use Rattle.reader_frames.specs.StateView.{state_of};

use moo_token::token::Placed;
use reader_frames::begun::Begun;
use reader_frames::frame::{ExpressionFrame, Frame};
use reader_frames::left::Left;
use reader_frames::state::{Next, State, begin, stuck};
use std::alloc::AllocError;

/// An expression that is a part of something, and binds at least as tightly as this level.
#[inline(always)]
pub fn part_begins(
    frame: ExpressionFrame,
    brackets: bool,
    level: u8,
    begun: Box<Begun>,
    left: Left,
) -> Result<State, AllocError>
    ensures { IfOk result (λ s. state_of s ≡ goes (reads_expression brackets level (expression_begun frame (all_begun begun.value))) (left_of left)) }
{
    let begun = begin(begun, Frame::Expression(frame))?;
    let next = Next::Expression { brackets, level };
    Ok(State { next, begun, left })
}

/// A token that no program goes on with is put back.
pub fn stuck_before(placed: Placed, begun: Box<Begun>, mut left: Left) -> Result<State, AllocError>
    ensures { IfOk result (λ s. state_of s ≡ stops (place_meant (place_of placed) ∷ left_of left)) }
{
    left.put_back(placed)?;
    Ok(stuck(begun, left))
}
