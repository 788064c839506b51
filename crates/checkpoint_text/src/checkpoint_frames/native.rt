//! The lines of built-in functions that wait.
ghost use Rattle.std.specs.Prelude.{◌≡◌, ◌++◌, OnOk};
ghost use Rattle.spec_world.specs.World.{native_entry};
ghost use Rattle.spec_world.specs.Checkpoint.{entry_lines, native_text, with_line_ends};
ghost use Rattle.moo_task.specs.Frames.{native_name_of, native_of};

use crate::checkpoint_fields::page::Page;
use moo_task::native::{Native, NativeName};
use std::alloc::AllocError;

/// Writes the line of a built-in function that waits.
pub fn put_native(page: &mut Page, native: &Native) -> Result<(), AllocError>
    ensures { OnOk result (page.new ≡ page.old ++ with_line_ends (entry_lines (native_entry (native_of native.now)))) }
{
    page.put("native ")?;
    put_name(page, native.name)?;
    page.put(" ")?;
    page.put_number(u64::from(native.stage))?;
    page.put(" ")?;
    page.put_values(&native.arguments)?;
    page.end_line()
}

fn put_name(page: &mut Page, name: NativeName) -> Result<(), AllocError>
    ensures { OnOk result (page.new ≡ page.old ++ native_text (native_name_of name)) }
{
    match name {
        NativeName::Move => page.put("move"),
        NativeName::Create => page.put("create"),
        NativeName::Recycle => page.put("recycle"),
        NativeName::Eval => page.put("eval"),
    }
}
