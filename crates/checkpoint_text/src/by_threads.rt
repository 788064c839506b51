//! Worlds as text, made by several threads.
ghost use Rattle.std.specs.Prelude.{◌≡◌, ◌<◌, ◌≤◌, ◌++◌, OnOk, IfOk, IsTrue, string_bytes};
ghost use Rattle.std.specs.List.{flat_map};
ghost use Rattle.spec_value.specs.Table.{is_numbered};
ghost use Rattle.spec_world.specs.Checkpoint.{checkpoint_text, with_line_ends};
ghost use Rattle.checkpoint_text.specs.Parts.{object_part, objects_text};
ghost use Rattle.checkpoint_text.specs.Shortcuts.{ArePassed};

use crate::checkpoint_fields::page::Page;
use crate::checkpoint_objects::object::put_objects;
use crate::checkpoint_objects::shortcut::{Shortcut, shortcuts};
use crate::encode::{put_back, put_front};
use rayon::current_num_threads;
use rayon::prelude::*;
use std::alloc::{AllocError, Global};
use std::thread::Threads;
use world::draft::Draft;
use world::worlds::Snapshot;

// So many objects at least are written as one piece.
const PIECE: usize = 32;

// A part has one of so many objects, and so many more.
const PARTS: usize = 40;

const FEW: usize = 64;

/// The text of a snapshot's world. The lines of its objects are made by several threads where there are 64 objects or more, by one at most for each
/// processor, and stand in the objects' order. They are made a part of the objects at a time, so that little of the text is in memory twice.
pub fn encode_by_threads<R: Threads + Sync>(
    rt: &R,
    alloc: Global,
    snapshot: &Snapshot,
) -> Result<String, AllocError>
    ensures { IfOk result (λ text. string_bytes text ≡ checkpoint_text snapshot.now) }
{
    snapshot.know();
    let draft = snapshot.share()?;
    let mut page = Page::new(alloc);
    put_front(&mut page, &draft)?;
    put_object_part(rt, &mut page, alloc, &draft, snapshot)?;
    put_back(&mut page, alloc, &draft)?;
    Ok(page.into_string())
}

fn put_object_part<R: Threads + Sync>(
    rt: &R,
    page: &mut Page,
    alloc: Global,
    draft: &Draft,
    snapshot: &Snapshot,
) -> Result<(), AllocError>
    requires same { draft.now ≡ snapshot.now }
    requires objects { IsTrue (is_numbered draft.now.objects) }
    ensures { OnOk result (page.new ≡ page.old ++ with_line_ends (object_part draft.now)) }
{
    let numbers = draft.object_numbers()?;
    let shortcuts = shortcuts(alloc, draft, numbers.as_slice())?;
    page.put_count("objects", numbers.as_slice().len())?;
    put_parts(rt, page, alloc, snapshot, &shortcuts, numbers.as_slice())?;
    Ok(())
}

// Writes the lines of the objects of these numbers, part by part.
fn put_parts<R: Threads + Sync>(
    rt: &R,
    page: &mut Page,
    alloc: Global,
    snapshot: &Snapshot,
    shortcuts: &[Shortcut],
    numbers: &[i32],
) -> Result<(), AllocError>
    requires { ArePassed snapshot.now shortcuts.now }
    ensures { OnOk result (page.new ≡ page.old ++ objects_text snapshot.now numbers.now) }
{
    let size = part_size(numbers.len());
    let mut later = numbers;
    'parts: while !later.is_empty() {
        let (part, others) = later.split_at(size.min(later.len()));
        let pieces = pieces(rt, alloc, snapshot, shortcuts, part)?;
        put_pieces(page, pieces)?;
        later = others;
    }
    Ok(())
}

/// How many of so many objects are one part.
pub(crate) fn part_size(count: usize) -> usize
    ensures { 1 ≤ result }
{
    (count / PARTS).saturating_add(FEW)
}

// How many of so many objects are one piece. There are no more pieces than processors: each takes a new thread.
fn piece_size<R: Threads>(rt: &R, count: usize) -> usize
    ensures { 0 < result }
{
    (count / current_num_threads(rt))
        .saturating_add(1)
        .max(PIECE)
}

/// The lines of the objects of these numbers, in pieces.
pub(crate) fn pieces<R: Threads + Sync>(
    rt: &R,
    alloc: Global,
    snapshot: &Snapshot,
    shortcuts: &[Shortcut],
    numbers: &[i32],
) -> Result<Vec<String>, AllocError>
    requires { ArePassed snapshot.now shortcuts.now }
    ensures { IfOk result (λ v. flat_map (λ t. string_bytes t) v.items ≡ objects_text snapshot.now numbers.now) }
{
    let size = piece_size(rt, numbers.len());
    numbers
        .par_chunks(size)
        .with_min_len(1)
        .map(
            |piece: &[i32]| -> Result<String, AllocError>
                requires { ArePassed snapshot.now shortcuts.now }
                ensures { IfOk result (λ t. string_bytes t ≡ objects_text snapshot.entry.now piece.now) }
            { piece_of(alloc, snapshot, shortcuts, piece) },
        )
        .collect::<Result<Vec<String>, AllocError>>(rt, alloc)?
}

// The lines of the objects of these numbers.
#[tactic(auto, unfolding(crate::specs::Parts::objects_text))]
fn piece_of(
    alloc: Global,
    snapshot: &Snapshot,
    shortcuts: &[Shortcut],
    numbers: &[i32],
) -> Result<String, AllocError>
    requires { ArePassed snapshot.now shortcuts.now }
    ensures { IfOk result (λ t. string_bytes t ≡ objects_text snapshot.now numbers.now) }
{
    let draft = snapshot.share()?;
    let mut page = Page::new(alloc);
    put_objects(&mut page, alloc, &draft, shortcuts, numbers)?;
    Ok(page.into_string())
}

// Writes pieces one behind the other, and lets each go once it is written.
fn put_pieces(page: &mut Page, pieces: Vec<String>) -> Result<(), AllocError>
    ensures { OnOk result (page.new ≡ page.old ++ flat_map (λ t. string_bytes t) pieces.items) }
{
    for piece in pieces {
        page.put(piece.as_str())?;
    }
    Ok(())
}
