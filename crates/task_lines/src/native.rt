//! Built-in functions that wait, from their lines.
ghost use Rattle.std.specs.Prelude.{◌≡◌, ◌≤◌, ℕ, [], ◌∷◌, true, Ok, IfOk, codes};
ghost use Rattle.std.specs.Fmt.{decimal};
ghost use Rattle.spec_world.specs.World as world;
ghost use Rattle.spec_world.specs.Checkpoint.{native_text};
ghost use Rattle.moo_task.specs.Frames.{native_name_of, native_of};
ghost use Rattle.moo_task.specs.declared.native.NativeName.{NativeName as NativeNameOf};
ghost use Rattle.checkpoint_lines.specs.Gives.{Gives};
ghost use Rattle.checkpoint_lines.specs.Rows.{row_fields};
ghost use Rattle.spec_faults.specs.Cutting.{field_at};
ghost use Rattle.spec_faults.specs.Plain.{is_number, is_one_of, number_in};
ghost use Rattle.spec_faults.specs.Forms.{has_form, native_form};
ghost use Rattle.spec_faults.specs.Awaited.{by_form, native_named};
ghost use Rattle.checkpoint_lines.specs.declared.fault.FaultKind.TheVariants as kind;
ghost use Rattle.checkpoint_lines.specs.Told.{Checks, line_fields};
ghost use Rattle.task_lines.specs.Tasks.{NativeReads};
ghost use Rattle.task_lines.specs.Entries.{native_fields};
ghost use Rattle.task_lines.specs.Manners.{name_in};
ghost use Rattle.task_lines.specs.Verdicts.{IsWhole, VerdictTells};
ghost use Rattle.task_lines.specs.Awaiting.{native_verdict};

use checkpoint_lines::fault::{DecodeError, FaultKind};
use checkpoint_lines::row::Row;
use held_values::native::native_fits;
use line_fields::held::items_in;
use moo_task::native::{Native, NativeName};
use moo_value::items::copied;
use std::alloc::Global;

// The last stage of any function.
const LAST_STAGE: u64 = 3;

/// The function that a line tells.
pub fn native(alloc: Global, row: &Row<'_>) -> Result<Native, DecodeError>
    ensures reads { (n : world.Native) → NativeReads n → row_fields row.now ≡ native_fields n → Gives result (λ m. native_of m ≡ n) }
    ensures tells { IsWhole row.now → has_form native_form (row_fields row.now) ≡ true → VerdictTells result row.now (by_form native_form (line_fields row.now) native_verdict) (λ _. []) }
{
    let name = name(row)?;
    let stage = stage(row)?;
    let value = row.value(alloc, 3)?;
    let Some(arguments) = items_in(&value) else {
        return Err(row.fault(FaultKind::Frame));
    };
    let arguments = copied(alloc, arguments)?;
    let native = Native {
        name,
        stage,
        arguments,
    };
    if native_fits(&native) {
        Ok(native)
    } else {
        Err(row.fault(FaultKind::Frame))
    }
}

fn name(row: &Row<'_>) -> Result<NativeName, DecodeError>
    ensures reads { (n : NativeNameOf) → field_at (row_fields row.now) 1 ≡ native_text (native_name_of n) → result ≡ Ok n }
    ensures tells { Checks result row.now kind.Number (is_one_of (codes "move" ∷ codes "create" ∷ codes "recycle" ∷ codes "eval" ∷ []) (field_at (row_fields row.now) 1)) }
    ensures said { IfOk result (λ n. native_name_of n ≡ native_named (field_at (row_fields row.now) 1)) }
{
    let word = row.field(1);
    name_of(word).ok_or(row.fault(FaultKind::Number))
}

fn name_of(word: &[u8]) -> Option<NativeName>
    ensures { result ≡ name_in word.now }
{
    if word == b"move".as_slice() {
        return Some(NativeName::Move);
    }
    if word == b"create".as_slice() {
        return Some(NativeName::Create);
    }
    if word == b"recycle".as_slice() {
        return Some(NativeName::Recycle);
    }
    if word == b"eval".as_slice() {
        return Some(NativeName::Eval);
    }
    None
}

fn stage(row: &Row<'_>) -> Result<u32, DecodeError>
    ensures reads { (n : ℕ) → 1 ≤ n → n ≤ 3 → field_at (row_fields row.now) 2 ≡ decimal n → result ≡ Ok n }
    ensures tells { Checks result row.now kind.Number (is_number 1 3 (field_at (row_fields row.now) 2)) }
    ensures said { IfOk result (λ n. n ≡ number_in (field_at (row_fields row.now) 2)) }
{
    let stage = row.number(2, 1, LAST_STAGE)?;
    match u32::try_from(stage) {
        Ok(stage) => Ok(stage),
        Err(_) => Err(row.fault(FaultKind::Number)),
    }
}
