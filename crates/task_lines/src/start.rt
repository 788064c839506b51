//! What a command line gave, from its line.
ghost use Rattle.std.specs.Prelude.{◌≡◌, [], ◌∷◌, List, codes, IfOk, IsTrue, MatchOption, is_some};
ghost use Rattle.std.specs.List.{list_all};
ghost use Rattle.spec_value.specs.Datum as datum;
ghost use Rattle.spec_value.specs.Datum.{is_value, of_list};
ghost use Rattle.spec_world.specs.World as world;
ghost use Rattle.spec_world.specs.Checkpoint.{fields, list_literal, start_values};
ghost use Rattle.spec_faults.specs.Literals.{is_start};
ghost use Rattle.spec_faults.specs.Forms.{start_form};
ghost use Rattle.spec_faults.specs.Awaited.{one};
ghost use Rattle.checkpoint_lines.specs.Rows.{Left, Reads};
ghost use Rattle.checkpoint_lines.specs.Told.{Tells};

use checkpoint_lines::fault::{DecodeError, FaultKind};
use checkpoint_lines::lines::Lines;
use line_fields::held::{items_in, object_in, text_in};
use moo_task::moo_machine::call::Start;
use moo_task::start::SharedStart;
use moo_value::value::Value;
use std::alloc::{AllocError, Global};

/// What a command line gave, from the next line.
pub fn next_start(alloc: Global, lines: &mut Lines<'_>) -> Result<SharedStart, DecodeError>
    ensures reads { (s : world.Start) (rest : List datum.Text) → IsTrue (list_all is_value (start_values s)) → Left lines.old (fields (codes "start" ∷ list_literal (start_values s) ∷ []) ∷ rest) → Reads result lines.new rest (λ t. t ≡ s) }
    ensures tells { Tells result lines.old lines.new (one start_form ∷ []) (λ _. []) }
{
    let row = lines.next_with(alloc, b"start", 1)?;
    let value = row.value(alloc, 1)?;
    let found = start_in(alloc, &value)?;
    match found {
        Some(start) => Ok(SharedStart::new(alloc, start)?),
        None => Err(row.fault(FaultKind::Value)),
    }
}

fn start_in(alloc: Global, value: &Value) -> Result<Option<Start>, AllocError>
    ensures reads { (s : world.Start) → value.now ≡ datum.list (of_list (start_values s)) → IfOk result (λ o. MatchOption o ⊥ (λ t. t ≡ s)) }
    ensures fault { IfOk result (λ o. is_some o ≡ is_start value.now) }
{
    match items_in(value) {
        Some(items) => start_of(alloc, items),
        None => Ok(None),
    }
}

// `{argstr, dobj, dobjstr, prepstr, iobj, iobjstr}`
fn start_of(alloc: Global, items: &[Value]) -> Result<Option<Start>, AllocError>
    ensures reads { (s : world.Start) → items.now ≡ start_values s → IfOk result (λ o. MatchOption o ⊥ (λ t. t ≡ s)) }
    ensures fault { IfOk result (λ o. is_some o ≡ is_start (datum.list (of_list items.now))) }
{
    if items.len() != 6 {
        return Ok(None);
    }
    let objects = (object_in(&items[1]), object_in(&items[4]));
    let (Some(dobj), Some(iobj)) = objects else {
        return Ok(None);
    };
    let Some(argstr) = text_in(alloc, &items[0])? else {
        return Ok(None);
    };
    let Some(dobjstr) = text_in(alloc, &items[2])? else {
        return Ok(None);
    };
    let Some(prepstr) = text_in(alloc, &items[3])? else {
        return Ok(None);
    };
    let Some(iobjstr) = text_in(alloc, &items[5])? else {
        return Ok(None);
    };
    Ok(Some(Start {
        argstr,
        dobj,
        dobjstr,
        prepstr,
        iobj,
        iobjstr,
    }))
}
