//! The instruction that forks a task.
ghost use Rattle.std.specs.Prelude.{◌≡◌, ◌<◌, ◌+◌, ◌^◌, [], suc, Option, IfOk, OnOk, MatchOption};
ghost use Rattle.spec_value.specs.Datum.{integer, Text as TextOf};
ghost use Rattle.spec_program.specs.Tree.{Program as Body};
ghost use Rattle.spec_world.specs.World.{World};
ghost use Rattle.spec_moo.specs.Effects.Forks.{with_named};
ghost use Rattle.moo_code.specs.Instruction.{start_fork as start_fork_of};
ghost use Rattle.moo_code.specs.Layout.{code_of};
ghost use Rattle.moo_code.specs.Names.{names_of};
ghost use Rattle.moo_code.specs.Slots.{variables_with};
ghost use Rattle.moo_program.specs.Gathering.{forks_in};
ghost use Rattle.moo_program.specs.Meaning.{some_name_at, body_at};
ghost use Rattle.moo_task.specs.Shown.{Around, performs_of};
ghost use Rattle.moo_task.specs.Performing.{HasNames};
ghost use Rattle.moo_task.specs.Forking.{forks, fork_shown, in_scene, request_shown, HasId, IsNoInteger, ReadsNowhere, StaysAt};

use crate::deeds::Deeds;
use crate::moo_forks::body::forked;
use crate::moo_forks::queue::{enqueue, moment_after, next_id};
use crate::moo_machine::call::Call;
use crate::moo_machine::verb::{Did, State};
use crate::perform::slot_there;
use crate::running::Running;
use crate::task::Task;
use moo_value::error::MooError;
use moo_value::value::{Shown, Value};
use std::alloc::{AllocError, Global};

/// What a `fork` did.
#[derive(Drop)]
pub enum Fork {
    /// No task is started.
    NotStarted(Did),
    /// The verb goes on, and a task is queued under an id. It goes into the world.
    Started(i32, Task),
}

/// What a `fork` asks for, and gets.
#[derive(Drop)]
pub enum Request {
    /// Nothing: it is refused.
    Refused(Did),
    /// An id, and the moment at which the task is due, in seconds.
    Granted(i32, u32),
}

/// A task is forked so many seconds later, if the step has an id left for it (else `E_QUOTA`). What is no integer raises
/// `E_TYPE`, a negative number `E_INVARG`. The variable of the task has its id before the task gets the variables.
///
/// The fork is told by the slot of its variable, if it has one, and by its number among those of the verb's program.
pub fn start_fork(
    alloc: Global,
    task: &mut Running,
    deeds: &mut Deeds,
    variable: Option<u32>,
    number: u32,
) -> Result<Fork, AllocError>
    requires { task.old.frame.state.place + 1 < 2 ^ 64 }
    ensures shown { IfOk result (λ f. (w : World)
        → forks (some_name_at (names_of task.old.frame.program) variable) (body_at (forks_in (code_of task.old.frame.program)) number) deeds.old w task.old
        ≡ fork_shown f deeds.new w task.new) }
    ensures quiet { IfOk result ReadsNowhere }
    ensures player { task.new.player ≡ task.old.player }
{
    let names = task.frame.names();
    let body = task.frame.program.body(number as usize)?;
    let request = requested(&mut task.frame.state, &task.frame.call, deeds)?;
    match request {
        Request::Refused(did) => Ok(Fork::NotStarted(did)),
        Request::Granted(id, due) => {
            name_task(&mut task.frame.state, names, variable, id)?;
            let started = forked(alloc, task.player, &task.frame, body, due)?;
            enqueue(deeds, id, due)?;
            task.frame.state.place += 1;
            Ok(Fork::Started(id, started))
        }
    }
}

// The operand and a tick are taken, and an id and a moment given.
#[tactic(auto, using(crate::proofs::Next::next_place), unfolding(moo_code::specs::Machine::does, moo_code::specs::Performing::performed))]
fn requested(state: &mut State, call: &Call, deeds: &Deeds) -> Result<Request, AllocError>
    requires { state.old.place + 1 < 2 ^ 64 }
    ensures shown { IfOk result (λ r. (a : Around) (w : World) (x : Option TextOf) (body : Body)
        → performs_of (in_scene a deeds.now w) call.now (start_fork_of x body) [] state.old ≡ request_shown r (in_scene a deeds.now w) call.now x body state.new) }
    ensures id { IfOk result (λ r. HasId r deeds.now) }
    ensures place { IfOk result (λ r. StaysAt r state.old.place state.new) }
{
    let Some(value) = state.operands.pop() else {
        return Ok(Request::Refused(Did::LacksOperand));
    };
    if state.ticks == 0 {
        return Ok(Request::Refused(Did::RanOut));
    }
    state.ticks -= 1;
    let end = state.place + 1;
    let Some(seconds) = seconds_in(&value) else {
        let did = state.skips(call, end, MooError::TypeMismatch);
        return Ok(Request::Refused(did));
    };
    if seconds < 0 {
        let did = state.skips(call, end, MooError::InvalidArgument);
        return Ok(Request::Refused(did));
    }
    let Some(id) = next_id(deeds)? else {
        let did = state.skips(call, end, MooError::LimitExceeded);
        return Ok(Request::Refused(did));
    };
    let due = moment_after(deeds, seconds.unsigned_abs());
    Ok(Request::Granted(id, due))
}

// So many seconds.
fn seconds_in(value: &Value) -> Option<i32>
    ensures { MatchOption result (IsNoInteger value.now) (λ n. value.now ≡ integer n) }
{
    match value.shown() {
        Shown::Integer(seconds) => Some(seconds),
        _ => None,
    }
}

// The variable of the new task, if it has one, gets its id.
#[tactic(auto, using(crate::proofs::Forks::one_named))]
fn name_task(
    state: &mut State,
    names: usize,
    variable: Option<u32>,
    id: i32,
) -> Result<(), AllocError>
    ensures named { OnOk result ((a : Around) → HasNames a names
        → with_named (some_name_at (names_of a.program) variable) (integer id) (variables_with a.program a.further state.old.slots.items)
        ≡ variables_with a.program a.further state.new.slots.items) }
    ensures same { OnOk result (state.new ≡ record state.old { slots = state.new.slots }) }
{
    if let Some(slot) = variable {
        let slot = slot_there(state, names, slot)?;
        state.slots[slot] = Some(Value::integer(id));
    }
    Ok(())
}
