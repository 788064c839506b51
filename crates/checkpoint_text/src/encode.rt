//! Worlds as text.
ghost use Rattle.std.specs.Prelude.{◌≡◌, ◌++◌, OnOk, IfOk, IsTrue, string_bytes};
ghost use Rattle.spec_value.specs.Table.{is_numbered};
ghost use Rattle.spec_world.specs.Checkpoint.{checkpoint_text, with_line_ends};
ghost use Rattle.checkpoint_text.specs.Parts.{back, front, head_lines, link_part, object_part, state_lines, task_part};

use crate::checkpoint_fields::page::Page;
use crate::checkpoint_objects::link::put_links;
use crate::checkpoint_objects::object::put_objects;
use crate::checkpoint_objects::shortcut::shortcuts;
use crate::tasks::put_tasks;
use std::alloc::{AllocError, Global};
use world::draft::Draft;

/// The text of a world.
pub fn encode(alloc: Global, draft: &Draft) -> Result<String, AllocError>
    requires objects { IsTrue (is_numbered draft.now.objects) }
    requires tasks { IsTrue (is_numbered draft.now.tasks) }
    requires links { IsTrue (is_numbered draft.now.links) }
    ensures { IfOk result (λ text. string_bytes text ≡ checkpoint_text draft.now) }
{
    let mut page = Page::new(alloc);
    put_front(&mut page, draft)?;
    put_object_part(&mut page, alloc, draft)?;
    put_back(&mut page, alloc, draft)?;
    Ok(page.into_string())
}

/// Writes what stands before the objects.
pub(crate) fn put_front(page: &mut Page, draft: &Draft) -> Result<(), AllocError>
    requires { IsTrue (is_numbered draft.now.links) }
    ensures { OnOk result (page.new ≡ page.old ++ with_line_ends (front draft.now)) }
{
    put_head(page, draft)?;
    put_state(page, draft)?;
    put_link_part(page, draft)?;
    Ok(())
}

/// Writes what stands behind the objects.
pub(crate) fn put_back(page: &mut Page, alloc: Global, draft: &Draft) -> Result<(), AllocError>
    requires { IsTrue (is_numbered draft.now.tasks) }
    ensures { OnOk result (page.new ≡ page.old ++ with_line_ends (back draft.now)) }
{
    put_task_part(page, alloc, draft)?;
    page.put("end\n")?;
    Ok(())
}

fn put_head(page: &mut Page, draft: &Draft) -> Result<(), AllocError>
    ensures { OnOk result (page.new ≡ page.old ++ with_line_ends (head_lines draft.now)) }
{
    page.put("MOO-CHECKPOINT 1\nnext ")?;
    page.put_number(draft.next())?;
    page.end_line()
}

fn put_state(page: &mut Page, draft: &Draft) -> Result<(), AllocError>
    ensures { OnOk result (page.new ≡ page.old ++ with_line_ends (state_lines draft.now)) }
{
    page.put("greatest ")?;
    page.put_signed(draft.greatest())?;
    page.put("\nending ")?;
    page.put_flag(draft.is_ending())?;
    page.end_line()
}

fn put_link_part(page: &mut Page, draft: &Draft) -> Result<(), AllocError>
    requires { IsTrue (is_numbered draft.now.links) }
    ensures { OnOk result (page.new ≡ page.old ++ with_line_ends (link_part draft.now)) }
{
    let numbers = draft.link_numbers()?;
    page.put_count("links", numbers.as_slice().len())?;
    put_links(page, draft, numbers.as_slice())?;
    Ok(())
}

fn put_object_part(page: &mut Page, alloc: Global, draft: &Draft) -> Result<(), AllocError>
    requires { IsTrue (is_numbered draft.now.objects) }
    ensures { OnOk result (page.new ≡ page.old ++ with_line_ends (object_part draft.now)) }
{
    let numbers = draft.object_numbers()?;
    let shortcuts = shortcuts(alloc, draft, numbers.as_slice())?;
    page.put_count("objects", numbers.as_slice().len())?;
    put_objects(page, alloc, draft, &shortcuts, numbers.as_slice())?;
    Ok(())
}

fn put_task_part(page: &mut Page, alloc: Global, draft: &Draft) -> Result<(), AllocError>
    requires { IsTrue (is_numbered draft.now.tasks) }
    ensures { OnOk result (page.new ≡ page.old ++ with_line_ends (task_part draft.now)) }
{
    let ids = draft.waiting()?;
    page.put_count("tasks", ids.as_slice().len())?;
    put_tasks(page, alloc, draft, ids.as_slice())?;
    Ok(())
}
