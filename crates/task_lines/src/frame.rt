//! Verbs under way, from their lines.
ghost use Rattle.std.specs.Prelude.{◌≡◌, [], ◌∷◌, ◌++◌, List, length};
ghost use Rattle.spec_value.specs.Datum as datum;
ghost use Rattle.spec_program.specs.Spelling.{canonical_lines};
ghost use Rattle.spec_world.specs.World as world;
ghost use Rattle.moo_code.specs.Slots.{variables_with};
ghost use Rattle.moo_task.specs.Frames.{kept_of};
ghost use Rattle.spec_faults.specs.Awaited.{behind_code, code, of_frame};
ghost use Rattle.checkpoint_lines.specs.Rows.{Left, Reads};
ghost use Rattle.checkpoint_lines.specs.Told.{Tells};
ghost use Rattle.task_lines.specs.Entries.{kept_for, lines_behind_call, lines_behind_program};
ghost use Rattle.task_lines.specs.Tasks.{FrameReads, FrameStands};

use crate::head::Head;
use crate::held::next_held;
use crate::stand::next_stand;
use crate::start::next_start;
use crate::variables::{Variables, next_variables};
use checkpoint_lines::fault::DecodeError;
use checkpoint_lines::lines::Lines;
use moo_program::program::Program;
use moo_task::frame::Frame;
use moo_task::moo_machine::call::Call;
use moo_task::moo_machine::operands::Operands;
use moo_task::moo_machine::verb::State;
use moo_task::start::SharedStart;
use quick_reader::room::Room;
use std::alloc::Global;

/// The verb of which this is the first line, from the next lines. One that was forked stands at its beginning, any other at a call.
pub fn next_frame(
    alloc: Global,
    lines: &mut Lines<'_>,
    head: Head,
    is_fork: bool,
) -> Result<Frame, DecodeError>
    ensures reads { (f : world.Frame) (rest : List datum.Text) → FrameReads f → FrameStands is_fork f → head.call ≡ f.call → head.lines ≡ length (canonical_lines f.program) → Left lines.old (lines_behind_call f ++ rest) → Reads result lines.new rest (λ g. kept_of g ≡ kept_for is_fork f) }
    ensures tells { Tells result lines.old lines.new (code head.lines [] (of_frame is_fork) ∷ []) (λ _. []) }
{
    let Head { call, lines: count } = head;
    let mut room = Room::new(alloc);
    let kept = lines.next_program(alloc, &mut room, count)?;
    let program = kept.whole()?;
    next_under_way(alloc, lines, call, program, is_fork)
}

// The rest of a verb with this call and this program.
fn next_under_way(
    alloc: Global,
    lines: &mut Lines<'_>,
    call: Call,
    program: Program,
    is_fork: bool,
) -> Result<Frame, DecodeError>
    ensures reads { (f : world.Frame) (rest : List datum.Text) → FrameReads f → FrameStands is_fork f → call ≡ f.call → program ≡ f.program → Left lines.old (lines_behind_program f ++ rest) → Reads result lines.new rest (λ g. kept_of g ≡ kept_for is_fork f) }
    ensures tells { Tells result lines.old lines.new (behind_code (of_frame is_fork) program) (λ _. []) }
{
    let start = next_start(alloc, lines)?;
    let stand = next_stand(alloc, lines, &program, is_fork)?;
    let variables = next_variables(alloc, lines, &program)?;
    let operands = next_held(alloc, lines, &stand.wanted)?;
    Ok(frame(call, start, program, variables, stand.place, operands))
}

fn frame(
    call: Call,
    start: SharedStart,
    program: Program,
    variables: Variables,
    place: usize,
    operands: Operands,
) -> Frame
    ensures { kept_of result ≡ record { call = call; start = start; program = program; variables = variables_with program variables.further variables.slots.items; place = place; operands = operands } }
{
    let Variables { slots, further } = variables;
    Frame {
        call,
        start,
        program,
        further,
        state: State {
            place,
            operands,
            slots,
            ticks: 0,
        },
    }
}
