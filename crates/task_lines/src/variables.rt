//! The variables of a verb, from their lines.
ghost use Rattle.std.specs.Prelude.{◌≡◌, [], ◌∷◌, ◌++◌, List, None, length, map, replicate, codes, IfOk, IsTrue, OnOk};
ghost use Rattle.std.specs.List.{list_all};
ghost use Rattle.spec_value.specs.Datum as datum;
ghost use Rattle.spec_value.specs.Table.{Named, is_named};
ghost use Rattle.spec_world.specs.Checkpoint.{counted, variable_lines};
ghost use Rattle.moo_code.specs.Slots.{variables_with};
ghost use Rattle.moo_program.specs.Names.{found_place, known};
ghost use Rattle.moo_task.specs.Variables.{variable_of};
ghost use Rattle.spec_faults.specs.Forms.{variable_form};
ghost use Rattle.spec_faults.specs.Awaited.{one, counted as counted_of, again, each_variable};
ghost use Rattle.checkpoint_lines.specs.Rows.{Left, Reads};
ghost use Rattle.checkpoint_lines.specs.Told.{Tells};
ghost use Rattle.task_lines.specs.Gathering.{Gathers, further_with, slots_with, variable_line};
ghost use Rattle.task_lines.specs.Tasks.{variable_reads};

use crate::names::SlotNames;
use checkpoint_lines::fault::DecodeError;
use checkpoint_lines::lines::Lines;
use moo_program::program::Program;
use moo_task::variables::{SharedVariables, Variable};
use moo_value::value::Value;
use std::alloc::{AllocError, Global};

/// The variables of a verb: those that its program names, in their slots, and others.
#[derive(Drop)]
pub struct Variables {
    pub slots: Vec<Option<Value>>,
    pub further: SharedVariables,
}

/// The variables of a verb with this program, from the next lines.
pub fn next_variables(
    alloc: Global,
    lines: &mut Lines<'_>,
    program: &Program,
) -> Result<Variables, DecodeError>
    ensures reads { (es : Named datum.Datum) (rest : List datum.Text) → IsTrue (is_named es) → IsTrue (list_all variable_reads es) → Left lines.old (counted (codes "vars") (length es) ∷ (variable_lines es ++ rest)) → Reads result lines.new rest (λ v. variables_with program.now v.further v.slots.items ≡ es) }
    ensures tells { Tells result lines.old lines.new (counted_of (codes "vars") each_variable ∷ []) (λ _. []) }
{
    let names = SlotNames::new(alloc, program)?;
    let mut slots = empty_slots(alloc, program.slot_count())?;
    let mut further = Vec::new(alloc);
    let count = lines.next_count(alloc, b"vars")?;
    read_each(alloc, lines, &names, count, &mut slots, &mut further)?;
    let further = SharedVariables::new(alloc, further)?;
    Ok(Variables { slots, further })
}

// So many variables, into their slots or to the others.
fn read_each(
    alloc: Global,
    lines: &mut Lines<'_>,
    names: &SlotNames<'_>,
    count: u64,
    slots: &mut Vec<Option<Value>>,
    further: &mut Vec<Variable>,
) -> Result<(), DecodeError>
    requires { length slots.old.items ≡ length (known names.now) }
    ensures reads { (es : Named datum.Datum) (rest : List datum.Text) → IsTrue (is_named es) → IsTrue (list_all variable_reads es) → count ≡ length es → Left lines.old (variable_lines es ++ rest) → Gathers (known names.now) slots.old.items (map variable_of further.old.items) es es → Reads result lines.new rest (λ _. Gathers (known names.now) slots.new.items (map variable_of further.new.items) [] es) }
    ensures tells { Tells result lines.old lines.new (again count each_variable ∷ []) (λ _. []) }
{
    'variables: for _variable in 0..count {
        let variable = next_variable(alloc, lines)?;
        put(names, slots, further, variable)?;
    }
    Ok(())
}

fn next_variable(alloc: Global, lines: &mut Lines<'_>) -> Result<Variable, DecodeError>
    ensures reads { (e : datum.Text × datum.Datum) (rest : List datum.Text) → IsTrue (variable_reads e) → Left lines.old (variable_line e ∷ rest) → Reads result lines.new rest (λ v. variable_of v ≡ e) }
    ensures tells { Tells result lines.old lines.new (one variable_form ∷ []) (λ _. []) }
{
    let row = lines.next_with(alloc, b"var", 2)?;
    let name = row.text(alloc, 1)?;
    let value = row.value(alloc, 2)?;
    Ok(Variable { name, value })
}

// A variable into its slot, or to the others.
fn put(
    names: &SlotNames<'_>,
    slots: &mut Vec<Option<Value>>,
    further: &mut Vec<Variable>,
    variable: Variable,
) -> Result<(), AllocError>
    requires { length slots.old.items ≡ length (known names.now) }
    ensures slots { OnOk result (slots.new.items ≡ slots_with (found_place (known names.now) variable.name) slots.old.items variable.value) }
    ensures further { OnOk result (map variable_of further.new.items ≡ further_with (found_place (known names.now) variable.name) (map variable_of further.old.items) (variable_of variable)) }
    ensures count { length slots.new.items ≡ length slots.old.items }
{
    match names.slot(variable.name.as_str()) {
        Some(slot) => {
            slots[slot] = Some(variable.value);
            Ok(())
        }
        None => {
            further.push(variable)?;
            Ok(())
        }
    }
}

fn empty_slots(alloc: Global, count: usize) -> Result<Vec<Option<Value>>, AllocError>
    ensures { IfOk result (λ slots. slots.items ≡ replicate count None) }
{
    let mut slots = Vec::with_capacity(alloc, count)?;
    for _slot in 0..count {
        slots.push(None)?;
    }
    Ok(slots)
}
