//! What is under way in a task, one verb or built-in function, from its lines.
ghost use Rattle.std.specs.Prelude.{◌≡◌, ◌≤◌, ◌<◌, ◌^◌, ℕ, suc, [], ◌∷◌, ◌++◌, Bool, not, List, length, IfOk, IsTrue, codes};
ghost use Rattle.spec_value.specs.Datum as datum;
ghost use Rattle.spec_world.specs.World as world;
ghost use Rattle.spec_world.specs.Checkpoint.{entry_lines};
ghost use Rattle.moo_task.specs.Frames.{outer_of};
ghost use Rattle.spec_value.specs.Datum.{same_text};
ghost use Rattle.spec_faults.specs.Cutting.{field_at};
ghost use Rattle.checkpoint_lines.specs.Gives.{Gives};
ghost use Rattle.checkpoint_lines.specs.Rows.{Left, Reads, row_fields};
ghost use Rattle.checkpoint_lines.specs.Told.{Tells, line_fields};
ghost use Rattle.task_lines.specs.Begun.{BegunBy, entry_fields, may_stand_at};
ghost use Rattle.task_lines.specs.Entries.{is_native_outer, lines_behind, outer_for, own_line};
ghost use Rattle.task_lines.specs.Tasks.{EntryReads};
ghost use Rattle.task_lines.specs.Verdicts.{IsWhole, VerdictTells};
ghost use Rattle.task_lines.specs.Awaiting.{IsPlace, is_native_begun, entry_awaited, next_awaited, own_verdict, rest_awaited, stands};

use crate::frame::next_frame;
use crate::head::{Head, frame_head};
use crate::native::native;
use checkpoint_lines::fault::{DecodeError, FaultKind};
use checkpoint_lines::lines::Lines;
use checkpoint_lines::row::Row;
use moo_task::frame::Outer;
use moo_task::native::Native;
use std::alloc::Global;

// How many verbs can be under way in a task.
const VERB_LIMIT: u32 = 50;

/// Where an entry stands among those of its task.
#[derive(Clone, Copy)]
pub struct Place {
    pub is_fork: bool,
    pub is_first: bool,
    pub is_last: bool,
    pub is_behind_native: bool,
    /// How many verbs stand before it.
    pub verbs: u32,
}

/// What an entry's own line says.
#[derive(Drop)]
pub enum Begun {
    Verb(Head),
    Native(Native),
}

/// The entry that stands there, from the next lines.
pub fn next_entry(alloc: Global, lines: &mut Lines<'_>, place: Place) -> Result<Outer, DecodeError>
    ensures reads { (e : world.Entry) (rest : List datum.Text) → EntryReads place.is_fork e → IsTrue (may_stand_at place e) → Left lines.old (entry_lines e ++ rest) → Reads result lines.new rest (λ o. outer_of o ≡ outer_for place.is_fork e) }
    ensures tells { (more : ℕ) → IsPlace place more → Tells result lines.old lines.new (entry_awaited place (suc more) ∷ []) (λ o. next_awaited place more (is_native_outer (outer_of o)) ∷ []) }
    ensures stands { IfOk result (λ o. IsTrue (stands place (is_native_outer (outer_of o)))) }
{
    let begun = next_begun(alloc, lines, place)?;
    behind_begun(alloc, lines, begun, place.is_fork)
}

// The lines behind an entry's own.
fn behind_begun(
    alloc: Global,
    lines: &mut Lines<'_>,
    begun: Begun,
    is_fork: bool,
) -> Result<Outer, DecodeError>
    ensures reads { (e : world.Entry) (rest : List datum.Text) → EntryReads is_fork e → BegunBy e begun → Left lines.old (lines_behind e ++ rest) → Reads result lines.new rest (λ o. outer_of o ≡ outer_for is_fork e) }
    ensures tells { Tells result lines.old lines.new (rest_awaited is_fork begun) (λ _. []) }
    ensures kind { IfOk result (λ o. is_native_outer (outer_of o) ≡ is_native_begun begun) }
{
    match begun {
        Begun::Verb(head) => {
            let frame = next_frame(alloc, lines, head, is_fork)?;
            Ok(Outer::Verb(frame))
        }
        Begun::Native(native) => Ok(Outer::Native(native)),
    }
}

// The first line of an entry, which may stand there.
fn next_begun(alloc: Global, lines: &mut Lines<'_>, place: Place) -> Result<Begun, DecodeError>
    ensures reads { (e : world.Entry) (rest : List datum.Text) → EntryReads place.is_fork e → IsTrue (may_stand_at place e) → length (lines_behind e) ≤ length rest → Left lines.old (own_line e ∷ rest) → Reads result lines.new rest (BegunBy e) }
    ensures tells { (more : ℕ) → IsPlace place more → Tells result lines.old lines.new (entry_awaited place (suc more) ∷ []) (λ b. rest_awaited place.is_fork b ++ next_awaited place more (is_native_begun b) ∷ []) }
    ensures stands { IfOk result (λ b. IsTrue (stands place (is_native_begun b))) }
{
    let row = lines.next_row(alloc)?;
    let begun = begun_by(alloc, &row)?;
    if may_stand(&begun, place) {
        Ok(begun)
    } else {
        Err(row.fault(FaultKind::Frame))
    }
}

fn begun_by(alloc: Global, row: &Row<'_>) -> Result<Begun, DecodeError>
    ensures reads { (is_fork : Bool) (e : world.Entry) → EntryReads is_fork e → length (lines_behind e) < 2 ^ 63 → row_fields row.now ≡ entry_fields e → Gives result (BegunBy e) }
    ensures tells { (is_fork : Bool) → IsWhole row.now → VerdictTells result row.now (own_verdict is_fork (line_fields row.now)) (rest_awaited is_fork) }
    ensures kind { IfOk result (λ b. same_text (field_at (row_fields row.now) 0) (codes "frame") ≡ not (is_native_begun b)) }
{
    if row.has(b"frame", 7) {
        let head = frame_head(alloc, row)?;
        return Ok(Begun::Verb(head));
    }
    if row.has(b"native", 3) {
        let native = native(alloc, row)?;
        return Ok(Begun::Native(native));
    }
    Err(row.fault(FaultKind::Line))
}

// A fork is one verb. The first and the last are verbs, of which there are not too many, and no two built-in functions meet.
fn may_stand(begun: &Begun, place: Place) -> bool
    ensures entry { (e : world.Entry) → BegunBy e begun.now → result ≡ may_stand_at place e }
    ensures stands { result ≡ stands place (is_native_begun begun.now) }
{
    if place.is_fork && !place.is_first {
        return false;
    }
    match begun {
        Begun::Verb(_) => place.verbs < VERB_LIMIT,
        Begun::Native(_) => !place.is_first && !place.is_last && !place.is_behind_native,
    }
}
