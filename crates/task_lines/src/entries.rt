//! All that is under way in a task, from its lines.
ghost use Rattle.std.specs.Prelude.{◌≡◌, ◌+◌, ◌-◌, ◌^◌, [], ◌∷◌, ◌++◌, List, true, false, length, map, min, codes, if◌then◌else◌, IsTrue};
ghost use Rattle.spec_value.specs.Datum as datum;
ghost use Rattle.spec_world.specs.World as world;
ghost use Rattle.spec_world.specs.Checkpoint.{counted, each_entry};
ghost use Rattle.moo_task.specs.Frames.{outer_of, outers_of};
ghost use Rattle.spec_faults.specs.Awaited as awaited;
ghost use Rattle.checkpoint_lines.specs.Rows.{Left, Reads};
ghost use Rattle.checkpoint_lines.specs.Told.{Tells};
ghost use Rattle.task_lines.specs.Entries.{is_native_outer, lines_of, may_follow, outer_for};
ghost use Rattle.task_lines.specs.Tasks.{AllRead, OrderReads};

use crate::entry::{Place, next_entry};
use checkpoint_lines::fault::DecodeError;
use checkpoint_lines::lines::Lines;
use moo_task::frame::Outer;
use std::alloc::Global;

/// What is under way in a task, from the next lines, the innermost last.
pub fn next_entries(
    alloc: Global,
    lines: &mut Lines<'_>,
    is_fork: bool,
) -> Result<Vec<Outer>, DecodeError>
    ensures reads { (es : List world.Entry) (rest : List datum.Text) → AllRead is_fork es → OrderReads is_fork es → Left lines.old (counted (codes "entries") (length es) ∷ (each_entry es ++ rest)) → Reads result lines.new rest (λ v. outers_of v.items ≡ map (outer_for is_fork) es) }
    ensures tells { Tells result lines.old lines.new (awaited.entries is_fork ∷ []) (λ _. []) }
{
    let count = lines.next_count(alloc, b"entries")?;
    next_each(alloc, lines, is_fork, count)
}

// So many, the outermost first.
fn next_each(
    alloc: Global,
    lines: &mut Lines<'_>,
    is_fork: bool,
    count: u64,
) -> Result<Vec<Outer>, DecodeError>
    ensures reads { (es : List world.Entry) (rest : List datum.Text) → AllRead is_fork es → IsTrue (may_follow is_fork true false 0 es) → count ≡ length es → Left lines.old (lines_of es ++ rest) → Reads result lines.new rest (λ v. map outer_of v.items ≡ map (outer_for is_fork) es) }
    ensures tells { Tells result lines.old lines.new (awaited.entry is_fork 0 false count ∷ []) (λ _. []) }
{
    let mut entries = Vec::new(alloc);
    let mut verbs = 0u32;
    let mut is_behind_native = false;
    'entries: for index in 0..count {
        let place = Place {
            is_fork,
            is_first: index == 0,
            is_last: index + 1 == count,
            is_behind_native,
            verbs,
        };
        let entry = next_entry(alloc, lines, place)?;
        is_behind_native = is_native(&entry);
        verbs = verbs_with(verbs, is_behind_native);
        entries.push(entry)?;
    }
    Ok(entries)
}

fn is_native(entry: &Outer) -> bool
    ensures { result ≡ is_native_outer (outer_of entry.now) }
{
    match entry {
        Outer::Verb(_) => false,
        Outer::Native(_) => true,
    }
}

fn verbs_with(verbs: u32, is_native: bool) -> u32
    ensures { result ≡ (if is_native then verbs else min (verbs + 1) (2 ^ 32 - 1)) }
{
    if is_native {
        verbs
    } else {
        verbs.saturating_add(1)
    }
}
