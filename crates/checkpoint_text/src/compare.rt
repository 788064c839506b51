//! Texts that are compared with a world's, of which one piece at a time is written.
ghost use Rattle.std.specs.Prelude.{◌≡◌, ◌++◌, ◌∷◌, [], ◌↔◌, IfOk, IsTrue, MatchOption, codes, length};
ghost use Rattle.spec_value.specs.Table.{is_numbered, at};
ghost use Rattle.spec_world.specs.World.{object_at};
ghost use Rattle.spec_world.specs.Checkpoint.{checkpoint_text, counted, object_lines, task_lines, with_line_ends};
ghost use Rattle.checkpoint_text.specs.Behind.{BeginsOtherwise};
ghost use Rattle.checkpoint_text.specs.Each.{of_each, of_found};
ghost use Rattle.checkpoint_text.specs.Parts.{front, object_part, task_part};
ghost use Rattle.checkpoint_text.specs.Shortcuts.{ArePassed};

use crate::checkpoint_fields::page::Page;
use crate::checkpoint_objects::object;
use crate::checkpoint_objects::shortcut::{Shortcut, shortcuts};
use crate::encode::put_front;
use crate::tasks;
use std::alloc::{AllocError, Global};
use world::draft::Draft;

/// Whether bytes are the text of a world. No more of that is in memory at once than one object or task has, or what stands before them.
pub fn is_text(alloc: Global, draft: &Draft, bytes: &[u8]) -> Result<bool, AllocError>
    requires objects { IsTrue (is_numbered draft.now.objects) }
    requires tasks { IsTrue (is_numbered draft.now.tasks) }
    requires links { IsTrue (is_numbered draft.now.links) }
    ensures { IfOk result (λ same. IsTrue same ↔ bytes.now ≡ checkpoint_text draft.now) }
{
    let mut page = Page::new(alloc);
    let found = behind_front(&mut page, draft, bytes)?;
    let Some(rest) = found else {
        return Ok(false);
    };
    let found = behind_objects(&mut page, alloc, draft, rest)?;
    let Some(rest) = found else {
        return Ok(false);
    };
    let found = behind_tasks(&mut page, alloc, draft, rest)?;
    match found {
        Some(rest) => Ok(is_end(rest)),
        None => Ok(false),
    }
}

/// Whether nothing is left but the last line.
pub(crate) fn is_end(bytes: &[u8]) -> bool
    ensures { IsTrue result ↔ bytes.now ≡ with_line_ends (codes "end" ∷ []) }
{
    match bytes {
        b"end\n" => true,
        _ => false,
    }
}

/// What stands behind what stands before the objects.
pub(crate) fn behind_front<'b>(
    page: &mut Page,
    draft: &Draft,
    bytes: &'b [u8],
) -> Result<Option<&'b [u8]>, AllocError>
    requires { IsTrue (is_numbered draft.now.links) }
    ensures { IfOk result (λ o. MatchOption o (BeginsOtherwise (with_line_ends (front draft.now)) bytes.now) (λ rest. bytes.now ≡ with_line_ends (front draft.now) ++ rest.now)) }
{
    page.clear();
    put_front(page, draft)?;
    Ok(page.behind(bytes))
}

/// What stands behind a line of a word and a count.
pub(crate) fn behind_count<'b>(
    page: &mut Page,
    word: &str,
    count: usize,
    bytes: &'b [u8],
) -> Result<Option<&'b [u8]>, AllocError>
    ensures { IfOk result (λ o. MatchOption o (BeginsOtherwise (with_line_ends (counted word.now count ∷ [])) bytes.now) (λ rest. bytes.now ≡ with_line_ends (counted word.now count ∷ []) ++ rest.now)) }
{
    page.clear();
    page.put_count(word, count)?;
    Ok(page.behind(bytes))
}

// What stands behind the objects.
fn behind_objects<'b>(
    page: &mut Page,
    alloc: Global,
    draft: &Draft,
    bytes: &'b [u8],
) -> Result<Option<&'b [u8]>, AllocError>
    requires { IsTrue (is_numbered draft.now.objects) }
    ensures { IfOk result (λ o. MatchOption o (BeginsOtherwise (with_line_ends (object_part draft.now)) bytes.now) (λ rest. bytes.now ≡ with_line_ends (object_part draft.now) ++ rest.now)) }
{
    let numbers = draft.object_numbers()?;
    let shortcuts = shortcuts(alloc, draft, numbers.as_slice())?;
    let found = behind_count(page, "objects", numbers.as_slice().len(), bytes)?;
    match found {
        Some(rest) => {
            let left = behind_each(page, alloc, draft, &shortcuts, numbers.as_slice(), rest)?;
            Ok(left)
        }
        None => Ok(None),
    }
}

// What stands behind the objects of these numbers.
fn behind_each<'b>(
    page: &mut Page,
    alloc: Global,
    draft: &Draft,
    shortcuts: &[Shortcut],
    numbers: &[i32],
    bytes: &'b [u8],
) -> Result<Option<&'b [u8]>, AllocError>
    requires { ArePassed draft.now shortcuts.now }
    ensures { IfOk result (λ o. MatchOption o (BeginsOtherwise (with_line_ends (of_each (object_lines draft.now) draft.now.objects numbers.now)) bytes.now)
        (λ rest. bytes.now ≡ with_line_ends (of_each (object_lines draft.now) draft.now.objects numbers.now) ++ rest.now)) }
{
    let mut left = bytes;
    for number in numbers {
        let found = behind_object(page, alloc, draft, shortcuts, *number, left)?;
        match found {
            Some(rest) => left = rest,
            None => return Ok(None),
        }
    }
    Ok(Some(left))
}

// What stands behind the object of a number, if there is one.
fn behind_object<'b>(
    page: &mut Page,
    alloc: Global,
    draft: &Draft,
    shortcuts: &[Shortcut],
    number: i32,
    bytes: &'b [u8],
) -> Result<Option<&'b [u8]>, AllocError>
    requires { ArePassed draft.now shortcuts.now }
    ensures { IfOk result (λ o. MatchOption o (BeginsOtherwise (with_line_ends (of_found (object_lines draft.now) number (object_at draft.now number))) bytes.now)
        (λ rest. bytes.now ≡ with_line_ends (of_found (object_lines draft.now) number (object_at draft.now number)) ++ rest.now)) }
{
    page.clear();
    object::put_found(page, alloc, draft, shortcuts, number)?;
    Ok(page.behind(bytes))
}

/// What stands behind the tasks.
pub(crate) fn behind_tasks<'b>(
    page: &mut Page,
    alloc: Global,
    draft: &Draft,
    bytes: &'b [u8],
) -> Result<Option<&'b [u8]>, AllocError>
    requires { IsTrue (is_numbered draft.now.tasks) }
    ensures { IfOk result (λ o. MatchOption o (BeginsOtherwise (with_line_ends (task_part draft.now)) bytes.now) (λ rest. bytes.now ≡ with_line_ends (task_part draft.now) ++ rest.now)) }
{
    let ids = draft.waiting()?;
    let found = behind_count(page, "tasks", ids.as_slice().len(), bytes)?;
    match found {
        Some(rest) => {
            let left = behind_each_task(page, alloc, draft, ids.as_slice(), rest)?;
            Ok(left)
        }
        None => Ok(None),
    }
}

// What stands behind the tasks of these ids.
fn behind_each_task<'b>(
    page: &mut Page,
    alloc: Global,
    draft: &Draft,
    ids: &[i32],
    bytes: &'b [u8],
) -> Result<Option<&'b [u8]>, AllocError>
    ensures { IfOk result (λ o. MatchOption o (BeginsOtherwise (with_line_ends (of_each task_lines draft.now.tasks ids.now)) bytes.now)
        (λ rest. bytes.now ≡ with_line_ends (of_each task_lines draft.now.tasks ids.now) ++ rest.now)) }
{
    let mut left = bytes;
    for id in ids {
        let found = behind_task(page, alloc, draft, *id, left)?;
        match found {
            Some(rest) => left = rest,
            None => return Ok(None),
        }
    }
    Ok(Some(left))
}

// What stands behind the task of an id, if there is one.
fn behind_task<'b>(
    page: &mut Page,
    alloc: Global,
    draft: &Draft,
    id: i32,
    bytes: &'b [u8],
) -> Result<Option<&'b [u8]>, AllocError>
    ensures { IfOk result (λ o. MatchOption o (BeginsOtherwise (with_line_ends (of_found task_lines id (at draft.now.tasks id))) bytes.now)
        (λ rest. bytes.now ≡ with_line_ends (of_found task_lines id (at draft.now.tasks id)) ++ rest.now)) }
{
    page.clear();
    tasks::put_found(page, alloc, draft, id)?;
    Ok(page.behind(bytes))
}
