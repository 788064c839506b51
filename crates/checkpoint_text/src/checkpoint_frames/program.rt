//! The programs of verbs that wait.
ghost use Rattle.std.specs.Prelude.{◌≡◌, ◌++◌, OnOk};
ghost use Rattle.spec_world.specs.Checkpoint.{with_line_ends};
ghost use Rattle.checkpoint_text.specs.CheckpointFramesLines.{program_lines};

use crate::checkpoint_fields::page::Page;
use crate::checkpoint_frames::call::put_call;
use moo_printer::print::print;
use moo_program::program::Program;
use moo_task::moo_machine::call::Call;
use std::alloc::{AllocError, Global};

/// Writes the line of a call, and the program.
pub fn put_program(
    page: &mut Page,
    alloc: Global,
    call: &Call,
    program: &Program,
) -> Result<(), AllocError>
    ensures { OnOk result (page.new ≡ page.old ++ with_line_ends (program_lines call.now program.now)) }
{
    let lines = print(alloc, program.tree())?;
    put_call(page, call, lines.len())?;
    page.put_lines(&lines)
}
