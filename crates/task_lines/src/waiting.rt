//! How a task waits, from its line.
ghost use Rattle.std.specs.Prelude.{◌≡◌, ◌≤◌, [], ◌∷◌, true, false, ◌≤ℤ◌, ℕ, ℤ, pos, List, Ok, IfOk, IsTrue};
ghost use Rattle.std.specs.Fmt.{decimal, signed_decimal};
ghost use Rattle.spec_value.specs.Datum as datum;
ghost use Rattle.spec_value.specs.Datum.{in_number_range};
ghost use Rattle.spec_value.specs.Literal.{literal};
ghost use Rattle.spec_world.specs.World as world;
ghost use Rattle.spec_world.specs.Checkpoint.{fields};
ghost use Rattle.moo_task.specs.Effects.{waiting_of};
ghost use Rattle.line_fields.specs.Values.{is_readable};
ghost use Rattle.checkpoint_lines.specs.Gives.{Gives};
ghost use Rattle.spec_faults.specs.Plain.{is_number, is_integer};
ghost use Rattle.spec_faults.specs.Forms.{has_form};
ghost use Rattle.spec_faults.specs.Awaited.{task};
ghost use Rattle.checkpoint_lines.specs.Rows.{Left, Reads, row_fields};
ghost use Rattle.checkpoint_lines.specs.declared.fault.FaultKind.TheVariants as kind;
ghost use Rattle.checkpoint_lines.specs.Told.{Checks, RowTells, Tells};
ghost use Rattle.spec_faults.specs.Cutting.{field_at};
ghost use Rattle.task_lines.specs.declared.waiting.Manner.TheVariants.{Wait};
ghost use Rattle.task_lines.specs.Manners.{fields_of, manner_for, manner_in};
ghost use Rattle.task_lines.specs.Entries.{own_fields};
ghost use Rattle.task_lines.specs.Tasks.{WaitingReads, is_forked};
ghost use Rattle.task_lines.specs.Verdicts.{IsWhole};
ghost use Rattle.task_lines.specs.Awaiting.{behind_own, form_of, manner_forks, MannerTells};

use checkpoint_lines::fault::{DecodeError, FaultKind};
use checkpoint_lines::lines::Lines;
use checkpoint_lines::row::Row;
use moo_task::effect::Waiting;
use std::alloc::Global;

// The greatest id of a task, and the greatest number of a connection.
const LAST_TASK: i32 = 2_147_483_584;

const LAST_CONNECTION: i32 = 999_999;
// The last moment, in seconds.
const LAST_MOMENT: u64 = 2_147_483_647;

/// The word of a way to wait.
#[derive(Clone, Copy)]
enum Manner {
    Fork,
    Wait,
    Idle,
    Read,
}

/// A task's id and how it waits, from the next line.
pub fn next_waiting(alloc: Global, lines: &mut Lines<'_>) -> Result<(i32, Waiting), DecodeError>
    ensures reads { (i : ℤ) (w : world.Waiting) (rest : List datum.Text) → IsTrue (in_number_range i) → pos 1 ≤ℤ i → i ≤ℤ pos 2147483584 → WaitingReads w → Left lines.old (fields (own_fields i w) ∷ rest) → Reads result lines.new rest (λ p. (p.0 ≡ i) × (waiting_of p.1 ≡ w)) }
    ensures tells { Tells result lines.old lines.new (task ∷ []) (λ p. behind_own (is_forked (waiting_of p.1))) }
{
    let row = lines.next_row(alloc)?;
    let manner = manner_of(&row)?;
    let id = row.integer(1, 1, LAST_TASK)?;
    let waiting = waiting(alloc, &row, manner)?;
    Ok((id, waiting))
}

fn manner_of(row: &Row<'_>) -> Result<Manner, DecodeError>
    ensures reads { (i : ℤ) (w : world.Waiting) → row_fields row.now ≡ own_fields i w → result ≡ Ok (manner_for w) }
    ensures tells { IsWhole row.now → MannerTells result row.now }
{
    let Some(manner) = manner_named(row.field(2)) else {
        return Err(row.fault(FaultKind::Line));
    };
    if row.has(b"task", field_count(manner)) {
        Ok(manner)
    } else {
        Err(row.fault(FaultKind::Line))
    }
}

fn manner_named(word: &[u8]) -> Option<Manner>
    ensures { result ≡ manner_in word.now }
{
    if word == b"fork".as_slice() {
        return Some(Manner::Fork);
    }
    if word == b"wait".as_slice() {
        return Some(Manner::Wait);
    }
    if word == b"idle".as_slice() {
        return Some(Manner::Idle);
    }
    if word == b"read".as_slice() {
        return Some(Manner::Read);
    }
    None
}

// How many fields stand behind the first.
fn field_count(manner: Manner) -> usize
    ensures { result ≡ fields_of manner }
{
    match manner {
        Manner::Fork => 3,
        Manner::Wait => 4,
        Manner::Idle => 2,
        Manner::Read => 3,
    }
}

fn waiting(alloc: Global, row: &Row<'_>, manner: Manner) -> Result<Waiting, DecodeError>
    ensures reads { (i : ℤ) (w : world.Waiting) → WaitingReads w → row_fields row.now ≡ own_fields i w → manner ≡ manner_for w → Gives result (λ x. waiting_of x ≡ w) }
    ensures tells { IsWhole row.now → has_form (form_of manner) (row_fields row.now) ≡ true → is_number 1 2147483584 (field_at (row_fields row.now) 1) ≡ true → RowTells result row.now (form_of manner) }
    ensures forks { IfOk result (λ x. is_forked (waiting_of x) ≡ manner_forks manner) }
{
    match manner {
        Manner::Fork => forked(row),
        Manner::Wait => timed(alloc, row),
        Manner::Idle => Ok(Waiting::Idle),
        Manner::Read => reading(row),
    }
}

fn forked(row: &Row<'_>) -> Result<Waiting, DecodeError>
    ensures reads { (n : ℕ) → n ≤ 2147483647 → field_at (row_fields row.now) 3 ≡ decimal n → Gives result (λ x. waiting_of x ≡ world.forked n) }
    ensures tells { Checks result row.now kind.Number (is_number 0 2147483647 (field_at (row_fields row.now) 3)) }
    ensures forks { IfOk result (λ x. IsTrue (is_forked (waiting_of x))) }
{
    let due = moment(row)?;
    Ok(Waiting::Forked(due))
}

fn timed(alloc: Global, row: &Row<'_>) -> Result<Waiting, DecodeError>
    ensures reads { (n : ℕ) (v : datum.Datum) → n ≤ 2147483647 → IsTrue (is_readable v) → field_at (row_fields row.now) 3 ≡ decimal n → field_at (row_fields row.now) 4 ≡ literal v → Gives result (λ x. waiting_of x ≡ world.timed n v) }
    ensures tells { IsWhole row.now → has_form (form_of Wait) (row_fields row.now) ≡ true → is_number 1 2147483584 (field_at (row_fields row.now) 1) ≡ true → RowTells result row.now (form_of Wait) }
    ensures forks { IfOk result (λ x. is_forked (waiting_of x) ≡ false) }
{
    let due = moment(row)?;
    let value = row.value(alloc, 4)?;
    Ok(Waiting::Timed(due, value))
}

fn reading(row: &Row<'_>) -> Result<Waiting, DecodeError>
    ensures reads { (c : ℤ) → pos 1 ≤ℤ c → c ≤ℤ pos 999999 → field_at (row_fields row.now) 3 ≡ signed_decimal c → Gives result (λ x. waiting_of x ≡ world.reading_on c) }
    ensures tells { Checks result row.now kind.Number (is_integer (pos 1) (pos 999999) (field_at (row_fields row.now) 3)) }
    ensures forks { IfOk result (λ x. is_forked (waiting_of x) ≡ false) }
{
    let connection = row.integer(3, 1, LAST_CONNECTION)?;
    Ok(Waiting::ReadingOn(connection))
}

fn moment(row: &Row<'_>) -> Result<u32, DecodeError>
    ensures reads { (n : ℕ) → n ≤ 2147483647 → field_at (row_fields row.now) 3 ≡ decimal n → result ≡ Ok n }
    ensures tells { Checks result row.now kind.Number (is_number 0 2147483647 (field_at (row_fields row.now) 3)) }
{
    let moment = row.number(3, 0, LAST_MOMENT)?;
    match u32::try_from(moment) {
        Ok(moment) => Ok(moment),
        Err(_) => Err(row.fault(FaultKind::Number)),
    }
}
