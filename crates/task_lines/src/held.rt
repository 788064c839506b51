//! What a verb holds, from its lines.
ghost use Rattle.std.specs.Prelude.{◌≡◌, ◌-◌, ◌<◌, ◌^◌, ◌∷◌, [], ◌++◌, ℕ, suc, List, None, length, option_map, codes, IfOk, IsTrue};
ghost use Rattle.std.specs.List.{list_all};
ghost use Rattle.spec_value.specs.Datum as datum;
ghost use Rattle.spec_value.specs.Literal.{literal};
ghost use Rattle.spec_program.specs.Place.{Holds};
ghost use Rattle.spec_world.specs.Checkpoint.{counted, literal_lines};
ghost use Rattle.spec_faults.specs.Codes.{total};
ghost use Rattle.spec_faults.specs.Awaited as awaited;
ghost use Rattle.moo_code.specs.Rebuilding.{from_deepest};
ghost use Rattle.held_values.specs.Wanted.{all_fit, wanted_fits};
ghost use Rattle.line_fields.specs.Values.{is_readable};
ghost use Rattle.checkpoint_lines.specs.Rows.{Left, Reads};
ghost use Rattle.checkpoint_lines.specs.Told.{Tells};
ghost use Rattle.task_lines.specs.Wanting.{IsWantedBy, GoesWith};

use checkpoint_lines::fault::{DecodeError, FaultKind};
use checkpoint_lines::lines::Lines;
use held_values::fits::{Wanted, fits};
use moo_task::moo_machine::operands::Operands;
use moo_value::value::Value;
use std::alloc::{AllocError, Global};

/// What a verb holds, from the next lines: a value for each that is wanted, the outermost first.
///
/// Fault Frame where another number of values is told, or one is not what is wanted there.
pub fn next_held(
    alloc: Global,
    lines: &mut Lines<'_>,
    wanted: &[Wanted],
) -> Result<Operands, DecodeError>
    ensures reads { (vs : List datum.Datum) (rest : List datum.Text) → IsTrue (list_all is_readable vs) → IsTrue (all_fit None wanted.now vs) → Left lines.old (counted (codes "held") (length vs) ∷ (literal_lines vs ++ rest)) → Reads result lines.new rest (λ o. o ≡ from_deepest vs) }
    ensures tells { (hs : List (ℕ × Holds)) → IsWantedBy hs wanted.now → Tells result lines.old lines.new (awaited.held hs ∷ []) (λ _. []) }
{
    next_held_count(alloc, lines, wanted.len())?;
    let values = next_values(alloc, lines, wanted)?;
    Ok(operands(alloc, values)?)
}

fn next_held_count(alloc: Global, lines: &mut Lines<'_>, wanted: usize) -> Result<(), DecodeError>
    ensures reads { (rest : List datum.Text) → wanted < 2 ^ 63 → Left lines.old (counted (codes "held") wanted ∷ rest) → Reads result lines.new rest (λ _. Unit {0}) }
    ensures tells { (hs : List (ℕ × Holds)) → total hs ≡ wanted → Tells result lines.old lines.new (awaited.held hs ∷ []) (λ _. awaited.each_held hs) }
{
    let row = lines.next_with(alloc, b"held", 1)?;
    let count = row.count(1)?;
    if count == wanted as u64 {
        Ok(())
    } else {
        Err(row.fault(FaultKind::Frame))
    }
}

fn next_values(
    alloc: Global,
    lines: &mut Lines<'_>,
    wanted: &[Wanted],
) -> Result<Vec<Value>, DecodeError>
    ensures reads { (vs : List datum.Datum) (rest : List datum.Text) → IsTrue (list_all is_readable vs) → IsTrue (all_fit None wanted.now vs) → Left lines.old (literal_lines vs ++ rest) → Reads result lines.new rest (λ us. us.items ≡ vs) }
    ensures tells { (hs : List (ℕ × Holds)) → IsWantedBy hs wanted.now → Tells result lines.old lines.new (awaited.each_held hs) (λ _. []) }
{
    let mut values = Vec::new(alloc);
    'values: for one in wanted {
        let value = next_value(alloc, lines, *one, values.last())?;
        values.push(value)?;
    }
    Ok(values)
}

fn next_value(
    alloc: Global,
    lines: &mut Lines<'_>,
    wanted: Wanted,
    before: Option<&Value>,
) -> Result<Value, DecodeError>
    ensures reads { (v : datum.Datum) (rest : List datum.Text) → IsTrue (is_readable v) → IsTrue (wanted_fits wanted (option_map (λ b. b.now) before.entry) v) → Left lines.old (literal v ∷ rest) → Reads result lines.new rest (λ x. x ≡ v) }
    ensures fits { IfOk result (λ v. IsTrue (wanted_fits wanted (option_map (λ b. b.now) before.entry) v)) }
    ensures tells { (around more : ℕ) (h : Holds) (vs : List datum.Datum) → GoesWith around h vs wanted (option_map (λ b. b.now) before.entry) → Tells result lines.old lines.new (awaited.values (suc more) around h vs ∷ []) (λ v. awaited.values more around h (vs ++ v ∷ []) ∷ []) }
{
    let row = lines.next_row(alloc)?;
    if row.len() != 1 {
        return Err(row.fault(FaultKind::Line));
    }
    let value = row.value(alloc, 0)?;
    if fits(wanted, &value, before) {
        Ok(value)
    } else {
        Err(row.fault(FaultKind::Frame))
    }
}

fn operands(alloc: Global, values: Vec<Value>) -> Result<Operands, AllocError>
    ensures { IfOk result (λ o. o ≡ from_deepest values.items) }
{
    let mut operands = Operands::new(alloc);
    for value in values {
        operands.push(value)?;
    }
    Ok(operands)
}
