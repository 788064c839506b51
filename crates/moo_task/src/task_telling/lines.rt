//! Tracebacks, as lines.
ghost use Rattle.std.specs.Prelude.{◌≡◌, ◌++◌, ◌∷◌, [], IfOk, OnOk, IsTrue, codes};
ghost use Rattle.spec_value.specs.Datum.{is_text};
ghost use Rattle.spec_moo.specs.Pending.{raised, out_of_ticks};
ghost use Rattle.spec_moo.specs.Telling.{called_from, told, verb_spelled, stop_lines};
ghost use Rattle.moo_task.specs.Meant.{failure_meant};

use crate::moo_machine::leaving::{Failure, Traced};
use moo_value::text::Text;
use moo_value::value::Value;
use moo_value::write::to_str;
use std::alloc::{AllocError, Global};

/// Why a task stopped that had no tick left.
const OUT_OF_TICKS: &str = "Task ran out of ticks";

/// The last line of what a stopped task tells.
const END_OF_TRACEBACK: &str = "(End of traceback)";

/// The lines of an error that came out of a task.
pub fn failure_lines(alloc: Global, failure: &Failure) -> Result<Vec<Text>, AllocError>
    ensures { IfOk result (λ ts. ts.items ≡ stop_lines (raised (failure_meant failure.now))) }
{
    failure.message.know();
    traceback(alloc, failure.message.as_str(), &failure.traceback)
}

/// The lines of a task that had no tick left, by the verbs that were under way, the innermost first.
pub fn out_of_ticks_lines(alloc: Global, verbs: &[Traced]) -> Result<Vec<Text>, AllocError>
    ensures { IfOk result (λ ts. ts.items ≡ stop_lines (out_of_ticks verbs.now)) }
{
    traceback(alloc, OUT_OF_TICKS, verbs)
}

// The innermost verb and why it stopped, each verb that called it, and the end.
fn traceback(alloc: Global, why: &str, verbs: &[Traced]) -> Result<Vec<Text>, AllocError>
    requires { IsTrue (is_text why.now) }
    ensures { IfOk result (λ ts. ts.items ≡ told why.now verbs.now) }
{
    let mut lines = Vec::new(alloc);
    if let Some((innermost, outer)) = verbs.split_first() {
        let line = stopped_line(alloc, innermost, why)?;
        lines.push(line)?;
        push_callers(alloc, &mut lines, outer)?;
    }
    let end = Text::from_str(alloc, END_OF_TRACEBACK)?;
    lines.push(end)?;
    Ok(lines)
}

// A line for each verb; the end comes after them.
#[tactic(auto, using(crate::proofs::Callers::last_caller))]
fn push_callers(alloc: Global, lines: &mut Vec<Text>, verbs: &[Traced]) -> Result<(), AllocError>
    ensures { OnOk result (lines.new.items ++ called_from [] ≡ lines.old.items ++ called_from verbs.now) }
{
    for verb in verbs {
        let line = caller_line(alloc, verb)?;
        lines.push(line)?;
    }
    Ok(())
}

// The innermost verb, and why it stopped.
fn stopped_line(alloc: Global, verb: &Traced, why: &str) -> Result<Text, AllocError>
    requires { IsTrue (is_text why.now) }
    ensures { IfOk result (λ t. t ≡ verb_spelled verb.now ++ codes ": " ++ why.now) }
{
    let spelled = spelled(alloc, verb)?;
    spelled.know();
    Text::joined(alloc, spelled.as_str(), ": ", why)
}

// A verb that called another.
fn caller_line(alloc: Global, verb: &Traced) -> Result<Text, AllocError>
    ensures { IfOk result (λ t. t ≡ codes "called from " ++ verb_spelled verb.now) }
{
    let spelled = spelled(alloc, verb)?;
    spelled.know();
    Text::joined(alloc, "called from ", spelled.as_str(), "")
}

fn spelled(alloc: Global, verb: &Traced) -> Result<Text, AllocError>
    ensures { IfOk result (λ t. t ≡ verb_spelled verb.now) }
{
    let definer = Value::object(verb.definer);
    definer.know();
    let number = to_str(alloc, &definer)?;
    verb.verb.know();
    Text::joined(alloc, number.as_str(), ":", verb.verb.as_str())
}
