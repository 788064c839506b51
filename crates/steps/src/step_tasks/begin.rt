//! Verbs that begin a task.
ghost use Rattle.std.specs.Prelude.{◌≡◌, IfOk};
ghost use Rattle.spec_value.specs.Datum.{Data, list};
ghost use Rattle.spec_moo.specs.Steps.Running.{begun};
ghost use Rattle.moo_task.specs.Outcomes.{ticks_of};
ghost use Rattle.steps.specs.Tasks.{MayRun, called_as as called_as_of};

use moo_program::program::Program;
use moo_task::begin::begin as begin_verb;
use moo_task::moo_machine::call::{Call, Start};
use moo_task::outers::Outers;
use moo_task::room::Room;
use moo_task::running::Running;
use moo_task::start::SharedStart;
use moo_value::text::Text;
use moo_value::value::Value;
use rules::inherit::verb::FoundVerb;
use std::alloc::{AllocError, Global};

/// A task that begins with a verb, in this room, whose variable `verb` holds a word.
#[inline(always)]
pub fn begin(
    alloc: Global,
    room: Room,
    player: i32,
    call: Call,
    word: Text,
    start: Start,
    arguments: Value,
    program: Program,
    ticks: u32,
) -> Result<Running, AllocError>
    ensures runs { IfOk result (λ r. (args : Data) → arguments ≡ list args → MayRun r (begun player call word start args program)) }
    ensures ticks { IfOk result (λ r. ticks_of r ≡ ticks) }
{
    let called = called_as(&call, word);
    let start = SharedStart::new(alloc, start)?;
    let mut frame = begin_verb(room, player, start, called, program, arguments, ticks)?;
    frame.call = call;
    Ok(Running {
        player,
        frame,
        outer: Outers::new(alloc),
    })
}

// Who runs the verb, by another name.
#[inline(always)]
fn called_as(call: &Call, word: Text) -> Call
    ensures { result ≡ called_as_of call.now word }
{
    Call {
        this: call.this,
        caller: call.caller,
        definer: call.definer,
        programmer: call.programmer,
        verb: word,
        debug: call.debug,
    }
}

/// The program of a verb that was found.
pub fn program_of(found: &FoundVerb) -> Result<Program, AllocError>
    ensures { IfOk result (λ p. p ≡ (found.now.verb).program) }
{
    let verb = found.verb();
    verb.program.whole()
}
