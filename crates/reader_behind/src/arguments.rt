//! Behind an argument, and behind arguments.

ghost use Rattle.std.specs.Prelude.{◌≡◌, IfOk};
ghost use Rattle.spec_program.specs.Frames as f;
ghost use Rattle.spec_program.specs.Frames.{some_arguments_read};
ghost use Rattle.spec_reader.specs.Behind.{behind, found_by, codes_of_arguments};
ghost use Rattle.moo_reader.specs.Views.{found_of, arguments_found, codes_found};
ghost use Rattle.reader_frames.specs.LeftView.{left_of};
ghost use Rattle.reader_frames.specs.FrameViews.{all_begun, arguments_begun};
ghost use Rattle.reader_frames.specs.StateView.{state_of};

use moo_reader::build::{in_order, no_arguments, verb_call, whole, with_argument};
use moo_reader::found::{Arguments, Found, FoundCodes};
use moo_reader::start::function_call;
use moo_token::token::Sign;
use moo_tree::expression::Codes;
use reader_frames::begun::Begun;
use reader_frames::frame::{ArgumentsFrame, Frame};
use reader_frames::left::Left;
use reader_frames::state::{Next, Part, State, begin, past_sign};
use std::alloc::{AllocError, Global};

/// Behind an argument, spliced or not: another one behind a comma.
pub fn behind_argument(
    alloc: Global,
    brackets: bool,
    spliced: bool,
    argument: Found,
    begun: Box<Begun>,
    mut left: Left,
) -> Result<State, AllocError>
    ensures { IfOk result (λ s. state_of s ≡ behind (f.behind_argument brackets spliced) (all_begun begun.value some_arguments_read) (found_of argument)
        (left_of left)) }
{
    if left.take_sign(Sign::Comma) {
        let frame = ArgumentsFrame::Behind { spliced, argument };
        let begun = begin(begun, Frame::Arguments(frame))?;
        let next = Next::Arguments { brackets };
        return Ok(State { next, begun, left });
    }
    let arguments = with_argument(spliced, argument, no_arguments(alloc))?;
    let next = Next::Found(Part::Arguments(Box::new(alloc, arguments)?));
    Ok(State { next, begun, left })
}

// They are codes of errors.
fn as_codes(arguments: Arguments) -> FoundCodes
    ensures { codes_found result ≡ codes_of_arguments (arguments_found arguments) }
{
    let (arguments, nodes) = in_order(arguments);
    FoundCodes {
        tree: Codes::Listed(arguments),
        nodes,
    }
}

/// Behind arguments.
pub fn behind_arguments(
    alloc: Global,
    frame: ArgumentsFrame,
    arguments: Arguments,
    begun: Box<Begun>,
    left: Left,
) -> Result<State, AllocError>
    ensures { IfOk result (λ s. state_of s ≡ found_by (arguments_begun frame (all_begun begun.value)) (arguments_found arguments) (left_of left)) }
{
    match frame {
        ArgumentsFrame::Behind { spliced, argument } => {
            let arguments = with_argument(spliced, argument, arguments)?;
            let next = Next::Found(Part::Arguments(Box::new(alloc, arguments)?));
            Ok(State { next, begun, left })
        }
        ArgumentsFrame::To(sign) => {
            let next = Next::Found(Part::Arguments(Box::new(alloc, arguments)?));
            Ok(past_sign(sign, next, begun, left))
        }
        ArgumentsFrame::CallOf { name, line } => {
            let operand = function_call(alloc, &name, line, arguments)?;
            let next = Next::Found(Part::Operand(operand));
            Ok(State { next, begun, left })
        }
        ArgumentsFrame::VerbOf { object, name } => {
            let found = verb_call(alloc, object, name, arguments)?;
            let next = Next::Found(Part::Operand(whole(found)));
            Ok(State { next, begun, left })
        }
        ArgumentsFrame::Codes => {
            let codes = Box::new(alloc, as_codes(arguments))?;
            let next = Next::Found(Part::Codes(codes));
            Ok(State { next, begun, left })
        }
    }
}
