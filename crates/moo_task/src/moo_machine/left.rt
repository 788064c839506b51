//! Ways to leave a part, back from the values that held them.
ghost use Rattle.std.specs.Prelude.{◌≡◌, IfOk, option_map, ◌∷◌, []};
ghost use Rattle.spec_value.specs.Datum.{of_list};
ghost use Rattle.spec_moo.specs.Leaving.{read_traced, read_trace, read_return, read_failure, read_left};
ghost use Rattle.moo_task.specs.Meant.{leaving_meant, trace_meant, left_of, read_count};

use crate::moo_machine::leaving::{Failure, Leaving, Traced};
use moo_value::text::Text;
use moo_value::value::{Shown, Value};
use std::alloc::{AllocError, Global};

/// How a body was left, if it was not by its end, by the value that its finally part holds.
#[tactic(auto, using(crate::proofs::Reading::counted))]
pub fn left_in(alloc: Global, value: &Value) -> Result<Option<Leaving>, AllocError>
    ensures { IfOk result (λ o. option_map leaving_meant o ≡ left_of (read_left value.now)) }
{
    let Shown::List(items) = value.shown() else {
        return Ok(None);
    };
    let [way, rest @ ..] = items else {
        return Ok(None);
    };
    let Shown::Integer(way) = way.shown() else {
        return Ok(None);
    };
    if way < 1 {
        return Ok(None);
    }
    if way == 1 {
        return returned_in(rest);
    }
    if way == 2 {
        return failure_in(alloc, rest);
    }
    let Some(loops) = loops_in(rest) else {
        return Ok(None);
    };
    if way == 3 {
        return Ok(Some(Leaving::Broken(loops)));
    }
    Ok(Some(Leaving::Continued(loops)))
}

fn returned_in(items: &[Value]) -> Result<Option<Leaving>, AllocError>
    ensures { IfOk result (λ o. option_map leaving_meant o ≡ read_return (of_list items.now)) }
{
    let [value, rest @ ..] = items else {
        return Ok(None);
    };
    if !rest.is_empty() {
        return Ok(None);
    }
    let value = value.clone()?;
    Ok(Some(Leaving::Returned(value)))
}

// Out of how many loops.
fn loops_in(items: &[Value]) -> Option<u32>
    ensures { result ≡ read_count (of_list items.now) }
{
    let [count, rest @ ..] = items else {
        return None;
    };
    let Shown::Integer(count) = count.shown() else {
        return None;
    };
    if count < 0 || !rest.is_empty() {
        return None;
    }
    Some(count.unsigned_abs())
}

fn failure_in(alloc: Global, items: &[Value]) -> Result<Option<Leaving>, AllocError>
    ensures { IfOk result (λ o. option_map leaving_meant o ≡ read_failure (of_list items.now)) }
{
    let [code, rest @ ..] = items else {
        return Ok(None);
    };
    let [message, rest @ ..] = rest else {
        return Ok(None);
    };
    message.know();
    let Shown::Text(message) = message.shown() else {
        return Ok(None);
    };
    let [value, rest @ ..] = rest else {
        return Ok(None);
    };
    let [verbs, rest @ ..] = rest else {
        return Ok(None);
    };
    let Shown::List(verbs) = verbs.shown() else {
        return Ok(None);
    };
    if !rest.is_empty() {
        return Ok(None);
    }
    let Some(traceback) = trace_in(alloc, verbs)? else {
        return Ok(None);
    };
    let code = code.clone()?;
    let value = value.clone()?;
    let message = Text::from_str(alloc, message)?;
    Ok(Some(Leaving::Failed(Failure {
        code,
        message,
        value,
        traceback,
    })))
}

// The verbs of a traceback.
#[tactic(auto, using(crate::proofs::Reading::read_more, crate::proofs::Reading::read_stops))]
fn trace_in(alloc: Global, values: &[Value]) -> Result<Option<Vec<Traced>>, AllocError>
    ensures { IfOk result (λ o. trace_meant o ≡ read_trace (of_list values.now)) }
{
    let mut verbs = Vec::with_capacity(alloc, values.len())?;
    for value in values {
        let Some(verb) = traced_in(alloc, value)? else {
            return Ok(None);
        };
        verbs.push(verb)?;
    }
    Ok(Some(verbs))
}

fn traced_in(alloc: Global, value: &Value) -> Result<Option<Traced>, AllocError>
    ensures { IfOk result (λ o. o ≡ read_traced value.now) }
{
    let Shown::List(items) = value.shown() else {
        return Ok(None);
    };
    let [this, rest @ ..] = items else {
        return Ok(None);
    };
    let Shown::Object(this) = this.shown() else {
        return Ok(None);
    };
    let [verb, rest @ ..] = rest else {
        return Ok(None);
    };
    verb.know();
    let Shown::Text(verb) = verb.shown() else {
        return Ok(None);
    };
    let [programmer, rest @ ..] = rest else {
        return Ok(None);
    };
    let Shown::Object(programmer) = programmer.shown() else {
        return Ok(None);
    };
    let [definer, rest @ ..] = rest else {
        return Ok(None);
    };
    let Shown::Object(definer) = definer.shown() else {
        return Ok(None);
    };
    let [player, rest @ ..] = rest else {
        return Ok(None);
    };
    let Shown::Object(player) = player.shown() else {
        return Ok(None);
    };
    if !rest.is_empty() {
        return Ok(None);
    }
    let verb = Text::from_str(alloc, verb)?;
    Ok(Some(Traced {
        this,
        verb,
        programmer,
        definer,
        player,
    }))
}
