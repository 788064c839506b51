//! The lines of links.
ghost use Rattle.std.specs.Prelude.{◌≡◌, ◌++◌, Some, OnOk, option_map};
ghost use Rattle.spec_value.specs.Literal.{literal};
ghost use Rattle.spec_world.specs.Checkpoint.{lines_held, programming_held, with_line_ends};
ghost use Rattle.checkpoint_text.specs.Each.{of_each, of_found};
ghost use Rattle.checkpoint_text.specs.CheckpointObjectsLines.{link_line};

use crate::checkpoint_fields::page::Page;
use std::alloc::AllocError;
use view::link::{Link, Programming};
use view::lists::Lines;
use world::draft::Draft;

/// Writes the links of these numbers.
pub fn put_links(page: &mut Page, draft: &Draft, numbers: &[i32]) -> Result<(), AllocError>
    ensures { OnOk result (page.new ≡ page.old ++ with_line_ends (of_each link_line draft.now.links numbers.now)) }
{
    for number in numbers {
        put_found(page, *number, draft.link(*number))?;
    }
    Ok(())
}

fn put_found(page: &mut Page, number: i32, found: Option<&Link>) -> Result<(), AllocError>
    ensures { OnOk result (page.new ≡ page.old ++ with_line_ends (of_found link_line number (option_map (λ k. k.now) found.entry))) }
{
    match found {
        Some(link) => put_link(page, number, link),
        None => Ok(()),
    }
}

fn put_link(page: &mut Page, number: i32, link: &Link) -> Result<(), AllocError>
    ensures { OnOk result (page.new ≡ page.old ++ with_line_ends (link_line number link.now)) }
{
    page.put("link ")?;
    page.put_signed(number)?;
    page.put(" ")?;
    page.put_object(link.person)?;
    page.put(" ")?;
    put_programming(page, &link.programming)?;
    page.end_line()
}

fn put_programming(page: &mut Page, programming: &Option<Programming>) -> Result<(), AllocError>
    ensures { OnOk result (page.new ≡ page.old ++ literal (programming_held programming.now)) }
{
    match programming {
        Some(programming) => put_program(page, programming),
        None => page.put_signed(0),
    }
}

// The object, the verb and the lines so far.
fn put_program(page: &mut Page, programming: &Programming) -> Result<(), AllocError>
    ensures { OnOk result (page.new ≡ page.old ++ literal (programming_held (Some programming.now))) }
{
    page.put("{")?;
    page.put_object(programming.object)?;
    page.put(", ")?;
    page.put_text(&programming.verb)?;
    page.put(", ")?;
    put_lines(page, &programming.lines)?;
    page.put("}")
}

fn put_lines(page: &mut Page, lines: &Option<Lines>) -> Result<(), AllocError>
    ensures { OnOk result (page.new ≡ page.old ++ literal (lines_held lines.now)) }
{
    match lines {
        Some(lines) => page.put_texts(lines.as_slice()),
        None => page.put_signed(0),
    }
}
