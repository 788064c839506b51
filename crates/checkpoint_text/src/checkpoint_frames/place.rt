//! The places of verbs that wait, and what they hold there.
ghost use Rattle.std.specs.Prelude.{◌≡◌, ◌++◌, [], ◌∷◌, OnOk, map};
ghost use Rattle.std.specs.Fmt.{decimal};
ghost use Rattle.spec_world.specs.Checkpoint.{path as path_text, with_line_ends};
ghost use Rattle.checkpoint_text.specs.CheckpointFramesLines.{dotted, held_lines, place_line};

use crate::checkpoint_fields::page::Page;
use moo_value::value::Value;
use std::alloc::AllocError;

/// Writes the line of a path.
pub fn put_place(page: &mut Page, path: &[usize]) -> Result<(), AllocError>
    ensures { OnOk result (page.new ≡ page.old ++ with_line_ends (place_line path.now ∷ [])) }
{
    page.put("place ")?;
    put_path(page, path)?;
    page.end_line()
}

fn put_path(page: &mut Page, path: &[usize]) -> Result<(), AllocError>
    ensures { OnOk result (page.new ≡ page.old ++ path_text (map decimal path.now)) }
{
    match path.split_first() {
        Some((first, rest)) => {
            page.put_number(*first as u64)?;
            put_further(page, rest)?;
            Ok(())
        }
        None => page.put("0"),
    }
}

// Numbers with a dot before each.
fn put_further(page: &mut Page, numbers: &[usize]) -> Result<(), AllocError>
    ensures { OnOk result (page.new ≡ page.old ++ dotted numbers.now) }
{
    for number in numbers {
        page.put(".")?;
        page.put_number(*number as u64)?;
    }
    Ok(())
}

/// Writes values that are held.
pub fn put_held(page: &mut Page, held: &[Value]) -> Result<(), AllocError>
    ensures { OnOk result (page.new ≡ page.old ++ with_line_ends (held_lines held.now)) }
{
    page.put_count("held", held.len())?;
    page.put_value_lines(held)
}
