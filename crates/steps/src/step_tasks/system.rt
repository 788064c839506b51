//! What the server calls on `#0`.
ghost use Rattle.std.specs.Prelude.{◌≡◌, IfOk, IsTrue};
ghost use Rattle.spec_value.specs.Datum.{Data, list, is_text};
ghost use Rattle.spec_world.specs.VerbsSought.{find_verb as find_verb_of};
ghost use Rattle.spec_moo.specs.Steps.Running.{system, system_call, system_task as system_task_of, unnamed as unnamed_of};
ghost use Rattle.rules.specs.Lines.{AreAgreeing};
ghost use Rattle.moo_task.specs.Outcomes.{ticks_of};
ghost use Rattle.view.specs.Law.{Lasts, Tells};
ghost use Rattle.steps.specs.Tasks.{MayRun};

use crate::step_tasks::begin::{begin, program_of};
use moo_task::moo_machine::call::{Call, Start};
use moo_task::room::Room;
use moo_task::running::Running;
use moo_value::text::Text;
use moo_value::value::Value;
use rules::inherit::verb::{FoundVerb, find_verb};
use std::alloc::{AllocError, Global};
use view::law::View;

/// The object whose verbs the server calls.
pub const SYSTEM: i32 = 0;

/// The number that stands for no object.
const NOWHERE: i32 = -1;

/// The verb that a word names on `#0`.
pub fn on_system<V: View>(view: &mut V, word: &str) -> Result<Option<FoundVerb>, AllocError>
    requires home { V.holds view.old (V.home view.old) }
    requires well_formed { AreAgreeing V.holds V.now view.old }
    ensures lasts { Lasts V.holds V.home V.anchor view.old view.new result }
    ensures left { IfOk result (λ f. Tells V.holds V.now view.old view.new (λ w. find_verb_of w system word.now ≡ f)) }
{
    find_verb(view, SYSTEM, word)
}

/// A task that begins with a verb of `#0`, for somebody who calls it.
pub fn system_task(
    alloc: Global,
    caller: i32,
    word: &str,
    argstr: Text,
    arguments: Value,
    found: &FoundVerb,
    ticks: u32,
) -> Result<Running, AllocError>
    requires { IsTrue (is_text word.now) }
    ensures runs { IfOk result (λ r. (args : Data) → arguments ≡ list args → MayRun r (system_task_of caller word.now argstr args found.now)) }
    ensures ticks { IfOk result (λ r. ticks_of r ≡ ticks) }
{
    let called = system_called(alloc, caller, word, found)?;
    let name = Text::from_str(alloc, word)?;
    let start = unnamed(alloc, argstr)?;
    let program = program_of(found)?;
    let room = Room::new(alloc);
    let task = begin(
        alloc, room, caller, called, name, start, arguments, program, ticks,
    )?;
    Ok(task)
}

// Who runs a verb of `#0`.
fn system_called(
    alloc: Global,
    caller: i32,
    word: &str,
    found: &FoundVerb,
) -> Result<Call, AllocError>
    requires { IsTrue (is_text word.now) }
    ensures { IfOk result (λ c. c ≡ system_call caller word.now found.now) }
{
    let verb = Text::from_str(alloc, word)?;
    let definer = found.definer();
    let owned = found.verb();
    Ok(Call {
        this: SYSTEM,
        caller,
        definer,
        programmer: owned.owner,
        verb,
        debug: owned.debug,
    })
}

// What a verb starts with where nothing is named.
fn unnamed(alloc: Global, argstr: Text) -> Result<Start, AllocError>
    ensures { IfOk result (λ s. s ≡ unnamed_of argstr) }
{
    Ok(Start {
        argstr,
        dobj: NOWHERE,
        dobjstr: Text::from_str(alloc, "")?,
        prepstr: Text::from_str(alloc, "")?,
        iobj: NOWHERE,
        iobjstr: Text::from_str(alloc, "")?,
    })
}
