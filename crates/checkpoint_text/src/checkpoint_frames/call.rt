//! Who runs a verb for whom, and what the command line gave.
ghost use Rattle.std.specs.Prelude.{◌≡◌, ◌++◌, [], ◌∷◌, OnOk};
ghost use Rattle.std.specs.Fmt.{decimal};
ghost use Rattle.spec_value.specs.Datum.{text as text_of};
ghost use Rattle.spec_value.specs.Literal.{literal};
ghost use Rattle.spec_world.specs.Checkpoint.{call_line, flag, object_text, with_line_ends};
ghost use Rattle.checkpoint_text.specs.CheckpointFramesLines.{start_line};

use crate::checkpoint_fields::page::Page;
use moo_task::moo_machine::call::Call;
use moo_task::start::SharedStart;
use moo_value::text::Text;
use std::alloc::AllocError;

/// Writes the line of a call of a verb whose program has so many lines.
pub fn put_call(page: &mut Page, call: &Call, count: usize) -> Result<(), AllocError>
    ensures { OnOk result (page.new ≡ page.old ++ with_line_ends (call_line call.now count ∷ [])) }
{
    page.put("frame ")?;
    put_pair(page, call.this, call.caller)?;
    put_pair(page, call.definer, call.programmer)?;
    put_verb(page, &call.verb, call.debug, count)?;
    Ok(())
}

// Two objects, each before a space.
fn put_pair(page: &mut Page, first: i32, second: i32) -> Result<(), AllocError>
    ensures { OnOk result (page.new ≡ page.old ++ (object_text first ++ (32 ∷ (object_text second ++ 32 ∷ [])))) }
{
    page.put_object(first)?;
    page.put(" ")?;
    page.put_object(second)?;
    page.put(" ")
}

// The end of the line.
fn put_verb(page: &mut Page, verb: &Text, debug: bool, count: usize) -> Result<(), AllocError>
    ensures { OnOk result (page.new ≡ page.old
        ++ (literal (text_of verb.now) ++ (32 ∷ (flag debug ++ (32 ∷ (decimal count ++ 10 ∷ [])))))) }
{
    page.put_text(verb)?;
    page.put(" ")?;
    page.put_flag(debug)?;
    page.put(" ")?;
    page.put_number(count as u64)?;
    page.end_line()
}

/// Writes the line of what the command line gave.
pub fn put_start(page: &mut Page, start: &SharedStart) -> Result<(), AllocError>
    ensures { OnOk result (page.new ≡ page.old ++ with_line_ends (start_line start.now ∷ [])) }
{
    page.put("start {")?;
    put_items(page, start.argstr(), start.dobj(), start.dobjstr())?;
    page.put(", ")?;
    put_items(page, start.prepstr(), start.iobj(), start.iobjstr())?;
    page.put("}\n")
}

// A text, an object and a text, as items of a list.
fn put_items(page: &mut Page, first: &Text, object: i32, second: &Text) -> Result<(), AllocError>
    ensures { OnOk result (page.new ≡ page.old
        ++ (literal (text_of first.now) ++ (44 ∷ 32 ∷ (object_text object ++ (44 ∷ 32 ∷ literal (text_of second.now)))))) }
{
    page.put_text(first)?;
    page.put(", ")?;
    page.put_object(object)?;
    page.put(", ")?;
    page.put_text(second)
}
