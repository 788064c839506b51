//! Texts that are compared with a world's, which several threads write piece by piece.
ghost use Rattle.std.specs.Prelude.{◌≡◌, ◌++◌, ◌∷◌, [], ◌↔◌, IfOk, IsTrue, MatchOption, codes, string_bytes};
ghost use Rattle.std.specs.List.{flat_map};
ghost use Rattle.spec_value.specs.Table.{is_numbered};
ghost use Rattle.spec_world.specs.Checkpoint.{checkpoint_text, with_line_ends};
ghost use Rattle.checkpoint_text.specs.Behind.{BeginsOtherwise};
ghost use Rattle.checkpoint_text.specs.Parts.{object_part, objects_text};
ghost use Rattle.checkpoint_text.specs.Shortcuts.{ArePassed};

use crate::by_threads::{part_size, pieces};
use crate::checkpoint_fields::page::{Page, behind};
use crate::checkpoint_objects::shortcut::{Shortcut, shortcuts};
use crate::compare::{behind_count, behind_front, behind_tasks, is_end};
use std::alloc::{AllocError, Global};
use std::thread::Threads;
use world::draft::Draft;
use world::worlds::Snapshot;

/// Whether bytes are the text of a snapshot's world. The lines of its objects are made by several threads, a part of them at a time: no more of the text
/// is in memory at once than a 40th of the objects and 64 more have.
pub fn is_text_by_threads<R: Threads + Sync>(
    rt: &R,
    alloc: Global,
    snapshot: &Snapshot,
    bytes: &[u8],
) -> Result<bool, AllocError>
    ensures { IfOk result (λ same. IsTrue same ↔ bytes.now ≡ checkpoint_text snapshot.now) }
{
    snapshot.know();
    let draft = snapshot.share()?;
    let mut page = Page::new(alloc);
    let found = behind_front(&mut page, &draft, bytes)?;
    let Some(rest) = found else {
        return Ok(false);
    };
    let found = behind_object_part(rt, &mut page, alloc, &draft, snapshot, rest)?;
    let Some(rest) = found else {
        return Ok(false);
    };
    let found = behind_tasks(&mut page, alloc, &draft, rest)?;
    match found {
        Some(rest) => Ok(is_end(rest)),
        None => Ok(false),
    }
}

// What stands behind the objects.
fn behind_object_part<'b, R: Threads + Sync>(
    rt: &R,
    page: &mut Page,
    alloc: Global,
    draft: &Draft,
    snapshot: &Snapshot,
    bytes: &'b [u8],
) -> Result<Option<&'b [u8]>, AllocError>
    requires same { draft.now ≡ snapshot.now }
    requires objects { IsTrue (is_numbered draft.now.objects) }
    ensures { IfOk result (λ o. MatchOption o (BeginsOtherwise (with_line_ends (object_part draft.now)) bytes.now) (λ rest. bytes.now ≡ with_line_ends (object_part draft.now) ++ rest.now)) }
{
    let numbers = draft.object_numbers()?;
    let shortcuts = shortcuts(alloc, draft, numbers.as_slice())?;
    let found = behind_count(page, "objects", numbers.as_slice().len(), bytes)?;
    match found {
        Some(rest) => {
            let left = behind_parts(rt, alloc, snapshot, &shortcuts, numbers.as_slice(), rest)?;
            Ok(left)
        }
        None => Ok(None),
    }
}

// What stands behind the objects of these numbers.
fn behind_parts<'b, R: Threads + Sync>(
    rt: &R,
    alloc: Global,
    snapshot: &Snapshot,
    shortcuts: &[Shortcut],
    numbers: &[i32],
    bytes: &'b [u8],
) -> Result<Option<&'b [u8]>, AllocError>
    requires { ArePassed snapshot.now shortcuts.now }
    ensures { IfOk result (λ o. MatchOption o (BeginsOtherwise (objects_text snapshot.now numbers.now) bytes.now) (λ rest. bytes.now ≡ objects_text snapshot.now numbers.now ++ rest.now)) }
{
    let size = part_size(numbers.len());
    let mut left = bytes;
    let mut later = numbers;
    'parts: while !later.is_empty() {
        let (part, others) = later.split_at(size.min(later.len()));
        let pieces = pieces(rt, alloc, snapshot, shortcuts, part)?;
        match behind_pieces(&pieces, left) {
            Some(rest) => left = rest,
            None => return Ok(None),
        }
        later = others;
    }
    Ok(Some(left))
}

// What stands behind these pieces.
fn behind_pieces<'b>(pieces: &[String], bytes: &'b [u8]) -> Option<&'b [u8]>
    ensures { MatchOption result (BeginsOtherwise (flat_map (λ t. string_bytes t) pieces.now) bytes.now) (λ rest. bytes.now ≡ flat_map (λ t. string_bytes t) pieces.now ++ rest.now) }
{
    let mut left = bytes;
    for piece in pieces {
        match behind(piece.as_str().as_bytes(), left) {
            Some(rest) => left = rest,
            None => return None,
        }
    }
    Some(left)
}
