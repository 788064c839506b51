//! A verb's own line.
ghost use Rattle.std.specs.Prelude.{◌≡◌, ◌<◌, ◌^◌, ℕ, true, IfOk, IsTrue};
ghost use Rattle.spec_world.specs.World as world;
ghost use Rattle.spec_checkpoint.specs.Holding.{call_holds};
ghost use Rattle.checkpoint_lines.specs.Gives.{Gives};
ghost use Rattle.spec_faults.specs.Cutting.{field_at};
ghost use Rattle.spec_faults.specs.Plain.{number_in};
ghost use Rattle.spec_faults.specs.Forms.{frame_form, has_form};
ghost use Rattle.checkpoint_lines.specs.Rows.{row_fields};
ghost use Rattle.checkpoint_lines.specs.Told.{RowTells};
ghost use Rattle.task_lines.specs.Entries.{call_fields};
ghost use Rattle.task_lines.specs.Verdicts.{IsWhole};

use checkpoint_lines::fault::DecodeError;
use checkpoint_lines::row::Row;
use moo_task::moo_machine::call::Call;
use moo_value::text::Text;
use std::alloc::Global;

/// What a verb's own line says: its call, and how many lines its program has.
#[derive(Drop)]
pub struct Head {
    pub call: Call,
    pub lines: u64,
}

/// What a line says of a verb.
pub fn frame_head(alloc: Global, row: &Row<'_>) -> Result<Head, DecodeError>
    ensures reads { (c : world.Call) (n : ℕ) → IsTrue (call_holds c) → n < 2 ^ 63 → row_fields row.now ≡ call_fields c n → Gives result (λ h. (h.call ≡ c) × (h.lines ≡ n)) }
    ensures tells { IsWhole row.now → has_form frame_form (row_fields row.now) ≡ true → RowTells result row.now frame_form }
    ensures said { IfOk result (λ h. h.lines ≡ number_in (field_at (row_fields row.now) 7)) }
{
    let this = row.object(1)?;
    let caller = row.object(2)?;
    let definer = row.object(3)?;
    let programmer = row.object(4)?;
    let debug = row.flag(6)?;
    let lines = row.count(7)?;
    let verb = row.text(alloc, 5)?;
    let call = call_of(this, caller, definer, programmer, verb, debug);
    Ok(Head { call, lines })
}

fn call_of(this: i32, caller: i32, definer: i32, programmer: i32, verb: Text, debug: bool) -> Call
    ensures { result ≡ record { this = this; caller = caller; definer = definer; programmer = programmer; verb = verb; debug = debug } }
{
    Call {
        this,
        caller,
        definer,
        programmer,
        verb,
        debug,
    }
}
