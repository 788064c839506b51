//! The objects of a text, read by several threads before their turn.
//!
//! Nothing is promised of them but what their type says: that they stand between two places of it. So the text is looked at no closer than to find lines
//! that objects may begin with.
ghost use Rattle.std.specs.Prelude.{⊤};

use crate::ahead::ObjectsAhead;
use crate::shallow::begins_object;
use checkpoint_lines::lines::Lines;
use line_fields::cut::cut_at;
use rayon::prelude::*;
use std::alloc::{AllocError, Global};
use std::thread::Threads;

// Into so many pieces at most a text is cut: what stands behind each is compared with what the one before it left.
const PIECES: usize = 8;

// Shorter pieces are not worth a thread.
const LEAST: usize = 16_384;

// Lines are counted so many bytes at a time.
const CHUNK: usize = 255;

// A piece of a text, with all that stands behind it.
#[derive(Clone, Copy)]
struct Piece<'a> {
    text: &'a [u8],
    // how many lines stand before it
    lines: usize,
    // how many bytes stand behind it
    behind: usize,
}

/// The objects of a text as they are read by several threads; none where there is no memory for all of them.
pub fn read_ahead<'a, R: Threads + Sync>(
    rt: &R,
    alloc: Global,
    text: &'a [u8],
) -> Vec<ObjectsAhead<'a>> {
    match pieces_read(rt, alloc, text) {
        Ok(objects) => objects,
        Err(_) => Vec::new(alloc),
    }
}

fn pieces_read<'a, R: Threads + Sync>(
    rt: &R,
    alloc: Global,
    text: &'a [u8],
) -> Result<Vec<ObjectsAhead<'a>>, AllocError> {
    let pieces = pieces(alloc, text)?;
    pieces
        .as_slice()
        .par_iter()
        .with_min_len(1)
        .map(
            |piece: &Piece| -> Result<ObjectsAhead, AllocError>
                requires { ⊤ }
                ensures { ⊤ }
            { read_piece(alloc, *piece) },
        )
        .collect::<Result<Vec<ObjectsAhead>, AllocError>>(rt, alloc)?
}

fn read_piece<'a>(alloc: Global, piece: Piece<'a>) -> Result<ObjectsAhead<'a>, AllocError> {
    ObjectsAhead::read(alloc, Lines::behind(piece.text, piece.lines), piece.behind)
}

// A text in pieces of about the same size, from its first object on.
fn pieces<'a>(alloc: Global, text: &'a [u8]) -> Result<Vec<Piece<'a>>, AllocError> {
    let starts = starts(alloc, text)?;
    let mut pieces = Vec::with_capacity(alloc, starts.len())?;
    let mut lines: usize = 0;
    let mut before = text;
    for (place, start) in starts.iter().enumerate() {
        lines = lines.saturating_add(line_count(front(before, start.len())));
        let behind = match starts.get(place.saturating_add(1)) {
            Some(next) => next.len(),
            None => 0,
        };
        pieces.push(Piece {
            text: start,
            lines,
            behind,
        })?;
        before = start;
    }
    Ok(pieces)
}

// What is left of a text at the beginning of each of its pieces.
fn starts<'a>(alloc: Global, text: &'a [u8]) -> Result<Vec<&'a [u8]>, AllocError> {
    let size = (text.len() / PIECES).max(LEAST);
    let mut starts = Vec::with_capacity(alloc, PIECES)?;
    let mut left = text;
    for _piece in 0..PIECES {
        let Some(start) = next_object_line(left) else {
            break;
        };
        starts.push(start)?;
        left = &start[size.min(start.len())..];
    }
    Ok(starts)
}

// What is left of a text from the first line on that an object may begin with, of those behind a line end.
fn next_object_line(text: &[u8]) -> Option<&[u8]> {
    let mut left = text;
    for _line in 0..text.len() {
        let Some((_, rest)) = cut_at(left, b'\n') else {
            return None;
        };
        if begins_object(rest) {
            return Some(rest);
        }
        left = rest;
    }
    None
}

// A text without so many of its last bytes.
fn front(text: &[u8], behind: usize) -> &[u8] {
    &text[..text.len().saturating_sub(behind)]
}

fn line_count(text: &[u8]) -> usize {
    let mut count: usize = 0;
    for chunk in text.chunks(CHUNK) {
        count = count.saturating_add(usize::from(few_lines(chunk)));
    }
    count
}

// Of a text of no more bytes than a number of 8 bits counts, so that many are looked at at once.
fn few_lines(chunk: &[u8]) -> u8 {
    let mut count: u8 = 0;
    for byte in chunk {
        count = count.wrapping_add(u8::from(*byte == b'\n'));
    }
    count
}
