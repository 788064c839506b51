//! Behind codes of errors.

ghost use Rattle.std.specs.Prelude.{◌≡◌, IfOk};
ghost use Rattle.spec_program.specs.Frames.{an_operand};
ghost use Rattle.spec_reader.specs.Behind.{codes_read, found_by};
ghost use Rattle.moo_reader.specs.Views.{found_of, codes_found};
ghost use Rattle.reader_frames.specs.LeftView.{left_of};
ghost use Rattle.reader_frames.specs.FrameViews.{all_begun, codes_begun};
ghost use Rattle.reader_frames.specs.StateView.{state_of};

use moo_reader::build::caught;
use moo_reader::found::{Found, FoundCodes};
use moo_token::token::Sign;
use reader_frames::begun::Begun;
use reader_frames::frame::{BlockFrame, CodesFrame, ExpressionFrame, Frame, WithinOperand};
use reader_frames::left::Left;
use reader_frames::state::{Next, Part, State, begin, past_sign};
use std::alloc::{AllocError, Global};

// Behind the codes of a caught expression: a value that stands in its place, or none.
fn caught_codes(
    alloc: Global,
    brackets: bool,
    line: u64,
    found: Found,
    codes: FoundCodes,
    begun: Box<Begun>,
    mut left: Left,
) -> Result<State, AllocError>
    ensures { IfOk result (λ s. state_of s ≡ codes_read brackets line (found_of found) (all_begun begun.value an_operand) (codes_found codes)
        (left_of left)) }
{
    if left.take_sign(Sign::Arrow) {
        let codes = Box::new(alloc, codes)?;
        let within = WithinOperand::Instead {
            line,
            caught: found,
            codes,
        };
        let begun = begin(begun, Frame::Expression(ExpressionFrame::Operand(within)))?;
        let next = Next::Expression { brackets, level: 0 };
        return Ok(State { next, begun, left });
    }
    let operand = caught(alloc, line, found, codes)?;
    let next = Next::Found(Part::Operand(operand));
    Ok(past_sign(Sign::Quote, next, begun, left))
}

/// Behind codes of errors.
pub fn behind_codes(
    alloc: Global,
    frame: CodesFrame,
    codes: FoundCodes,
    begun: Box<Begun>,
    left: Left,
) -> Result<State, AllocError>
    ensures { IfOk result (λ s. state_of s ≡ found_by (codes_begun frame (all_begun begun.value)) (codes_found codes) (left_of left)) }
{
    match frame {
        CodesFrame::Caught {
            brackets,
            line,
            caught,
        } => caught_codes(alloc, brackets, line, caught, codes, begun, left),
        CodesFrame::Arm { variable } => {
            let codes = Box::new(alloc, codes)?;
            let frame = BlockFrame::Arm { variable, codes };
            let begun = begin(begun, Frame::Block(frame))?;
            Ok(past_sign(Sign::CloseParenthesis, Next::Block, begun, left))
        }
    }
}
