//! The task that a fork starts: its body, with all variables of the verb that forks it.
ghost use Rattle.std.specs.Prelude.{◌≡◌, ◌∷◌, [], ℕ, List, map, IfOk, OnOk, false};
ghost use Rattle.std.specs.Borrow.{Bor};
ghost use Rattle.spec_value.specs.Datum.{Text as TextOf};
ghost use Rattle.spec_value.specs.Table.{named};
ghost use Rattle.spec_world.specs.WellFormed.{has_name};
ghost use Rattle.moo_program.specs.Names.{known};
ghost use Rattle.moo_task.specs.Frames.{kept_of};
ghost use Rattle.moo_task.specs.Variables.{variable_of};
ghost use Rattle.moo_task.specs.Keeping.{forked_task};
ghost use Rattle.moo_task.specs.Copying.{forked_kept, HasCopied};

use crate::copies::copy_call;
use crate::frame::Frame;
use crate::moo_forks::lookup::{Slots, Variables};
use crate::moo_machine::operands::Operands;
use crate::moo_machine::verb::State;
use crate::task::Task;
use crate::variables::{SharedVariables, Variable};
use moo_program::names::STARTING_NAMES;
use moo_program::program::Program;
use moo_value::text::Text;
use moo_value::value::Value;
use std::alloc::{AllocError, Global};

/// A task that begins with the body of a fork at a moment, in seconds: for the same player and call as a verb, with all of
/// its variables. Each is looked up, so the time grows with their count and that of the body's names.
pub fn forked(
    alloc: Global,
    player: i32,
    frame: &Frame,
    body: Program,
    due: u32,
) -> Result<Task, AllocError>
    ensures { IfOk result (λ t. t ≡ forked_task player due (forked_kept (kept_of frame.now) body)) }
{
    let frame = begun(alloc, frame, body)?;
    let task = Task::forked(alloc, player, due, frame)?;
    Ok(task)
}

// The body at its beginning.
fn begun(alloc: Global, frame: &Frame, body: Program) -> Result<Frame, AllocError>
    ensures kept { IfOk result (λ f. kept_of f ≡ forked_kept (kept_of frame.now) body) }
    ensures place { IfOk result (λ f. f.state.place ≡ 0) }
    ensures operands { IfOk result (λ f. f.state.operands ≡ []) }
{
    let names = body.names();
    let (slots, further) = variables_for(alloc, frame, names)?;
    let call = copy_call(&frame.call)?;
    let start = frame.start.clone()?;
    Ok(Frame {
        call,
        start,
        program: body,
        further,
        state: State {
            place: 0,
            operands: Operands::new(alloc),
            slots,
            ticks: 0,
        },
    })
}

// The values of a program's names, and the variables of a verb that it does not name.
fn variables_for(
    alloc: Global,
    frame: &Frame,
    own: &[Text],
) -> Result<(Vec<Option<Value>>, SharedVariables), AllocError>
    ensures slots { IfOk result (λ r. r.0.items ≡ map (named (kept_of frame.now).variables) (known own.now)) }
    ensures further { IfOk result (λ r. (x : TextOf) → has_name (known own.now) x ≡ false → named r.1 x ≡ named (kept_of frame.now).variables x) }
{
    let variables = Variables::new(alloc, frame)?;
    let named = Slots::new(alloc, own)?;
    let slots = slots_for(alloc, &variables, own)?;
    let further = further_for(alloc, &variables, &named)?;
    Ok((slots, further))
}

// ---- variables that the body names

// The values of a program's names: those of every verb's start, and its own.
#[tactic(auto, using(crate::proofs::Copying::own_from_start, crate::proofs::Copying::next_own, crate::proofs::Copying::all_values))]
fn slots_for(
    alloc: Global,
    variables: &Variables<'_>,
    own: &[Text],
) -> Result<Vec<Option<Value>>, AllocError>
    ensures { IfOk result (λ slots. slots.items ≡ map (named (kept_of variables.now.frame.now).variables) (known own.now)) }
{
    let mut slots = starting_values(alloc, variables, &STARTING_NAMES)?;
    for name in own {
        slots.push(value_of(variables, name.as_str())?)?;
    }
    Ok(slots)
}

#[tactic(auto, using(crate::proofs::Copying::next_starting))]
fn starting_values(
    alloc: Global,
    variables: &Variables<'_>,
    names: &[&str],
) -> Result<Vec<Option<Value>>, AllocError>
    ensures { IfOk result (λ slots. slots.items ≡ map (named (kept_of variables.now.frame.now).variables) (map (λ (s : Bor (List ℕ)). s.now) names.now)) }
{
    let mut slots = Vec::new(alloc);
    for name in names {
        slots.push(value_of(variables, *name)?)?;
    }
    Ok(slots)
}

fn value_of(variables: &Variables<'_>, name: &str) -> Result<Option<Value>, AllocError>
    ensures { IfOk result (λ v. v ≡ named (kept_of variables.now.frame.now).variables name.now) }
{
    match variables.find(name) {
        Some(value) => Ok(Some(value.clone()?)),
        None => Ok(None),
    }
}

// ---- the others

// The variables of a verb that a program with these slots does not name.
#[tactic(auto, using(crate::proofs::Copying::none_copied, crate::proofs::Copying::next_name, crate::proofs::Copying::next_variable))]
fn further_for(
    alloc: Global,
    variables: &Variables<'_>,
    names: &Slots<'_>,
) -> Result<SharedVariables, AllocError>
    ensures { IfOk result (λ vs. (x : TextOf) → has_name (known names.now) x ≡ false → named vs x ≡ named (kept_of variables.now.frame.now).variables x) }
{
    let mut copies = Vec::new(alloc);
    let own = variables.frame.program.names();
    for name in own {
        copy_variable(&mut copies, variables, names, name)?;
    }
    let further = variables.frame.further.as_slice();
    for variable in further {
        copy_variable(&mut copies, variables, names, &variable.name)?;
    }
    let copies = SharedVariables::new(alloc, copies)?;
    Ok(copies)
}

// A variable is copied that has a value, unless the program names it.
#[tactic(auto, using(crate::proofs::Copying::copied_one, crate::proofs::Copying::without_value, crate::proofs::Copying::named_there))]
fn copy_variable(
    copies: &mut Vec<Variable>,
    variables: &Variables<'_>,
    names: &Slots<'_>,
    name: &Text,
) -> Result<(), AllocError>
    ensures { OnOk result ((rest : List TextOf)
        → HasCopied (known names.now) (kept_of variables.now.frame.now).variables (map variable_of copies.old.items) (name.now ∷ rest)
        → HasCopied (known names.now) (kept_of variables.now.frame.now).variables (map variable_of copies.new.items) rest) }
{
    if names.has(name.as_str()) {
        return Ok(());
    }
    if let Some(value) = value_of(variables, name.as_str())? {
        let name = name.clone()?;
        copies.push(Variable { name, value })?;
    }
    Ok(())
}
