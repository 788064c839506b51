//! Ways to leave a part, as values that a finally part holds and a handler binds.
ghost use Rattle.std.specs.Prelude.{◌≡◌, pos, IfOk};
ghost use Rattle.spec_value.specs.Datum.{list as list_of, integer};
ghost use Rattle.spec_moo.specs.Leaving.{traced_value as traced_value_of, trace_values, failure_value as failure_value_of, leaving_held, held_as, ended};
ghost use Rattle.moo_task.specs.Meant.{failure_meant, leaving_meant};

use crate::moo_machine::leaving::{Failure, Leaving, Traced};
use moo_value::value::Value;
use std::alloc::{AllocError, Global};

fn traced_value(alloc: Global, verb: &Traced) -> Result<Value, AllocError>
    ensures { IfOk result (λ v. v ≡ traced_value_of verb.now) }
{
    let name = verb.verb.clone()?;
    let items = Vec::from_array(
        alloc,
        [
            Value::object(verb.this),
            Value::text(name),
            Value::object(verb.programmer),
            Value::object(verb.definer),
            Value::object(verb.player),
        ],
    )?;
    Value::list(items)
}

#[tactic(auto, using(crate::proofs::Traces::values_of_trace, crate::proofs::Traces::one_more))]
fn trace_value(alloc: Global, verbs: &[Traced]) -> Result<Value, AllocError>
    ensures { IfOk result (λ v. v ≡ list_of (trace_values verbs.now)) }
{
    let mut values = Vec::with_capacity(alloc, verbs.len())?;
    for verb in verbs {
        let value = traced_value(alloc, verb)?;
        values.push(value)?;
    }
    let value = Value::list(values)?;
    Ok(value)
}

/// What a handler binds: the code, the message, the value and the verbs of an error.
pub fn failure_value(alloc: Global, failure: &Failure) -> Result<Value, AllocError>
    ensures { IfOk result (λ v. v ≡ failure_value_of (failure_meant failure.now)) }
{
    let code = failure.code.clone()?;
    let message = failure.message.clone()?;
    let value = failure.value.clone()?;
    let trace = trace_value(alloc, &failure.traceback)?;
    let items = Vec::from_array(alloc, [code, Value::text(message), value, trace])?;
    Value::list(items)
}

/// How a body was left, as its finally part holds it. No program has more loops around one another than there are integers: that
/// would be want of memory.
pub fn leaving_value(alloc: Global, leaving: &Leaving) -> Result<Value, AllocError>
    ensures { IfOk result (λ v. v ≡ leaving_held (leaving_meant leaving.now)) }
{
    match leaving {
        Leaving::Returned(value) => {
            let value = value.clone()?;
            let items = Vec::from_array(alloc, [Value::integer(1), value])?;
            Value::list(items)
        }
        Leaving::Failed(failure) => {
            let code = failure.code.clone()?;
            let message = failure.message.clone()?;
            let value = failure.value.clone()?;
            let trace = trace_value(alloc, &failure.traceback)?;
            let items = Vec::from_array(
                alloc,
                [Value::integer(2), code, Value::text(message), value, trace],
            )?;
            Value::list(items)
        }
        Leaving::Broken(loops) => {
            let count = counted(*loops)?;
            let items = Vec::from_array(alloc, [Value::integer(3), count])?;
            Value::list(items)
        }
        Leaving::Continued(loops) => {
            let count = counted(*loops)?;
            let items = Vec::from_array(alloc, [Value::integer(4), count])?;
            Value::list(items)
        }
    }
}

fn counted(loops: u32) -> Result<Value, AllocError>
    ensures { IfOk result (λ v. v ≡ integer (pos loops)) }
{
    match i32::try_from(loops) {
        Ok(count) => Ok(Value::integer(count)),
        Err(_) => Err(AllocError),
    }
}

/// That a body was left by its end.
pub fn ended_value(alloc: Global) -> Result<Value, AllocError>
    ensures { IfOk result (λ v. v ≡ held_as ended) }
{
    Value::list(Vec::from_array(alloc, [Value::integer(0)])?)
}
