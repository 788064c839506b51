//! Variables of a verb that its program does not name.
ghost use Rattle.std.specs.Prelude.{◌≡◌, [], map, option_map, slice_get, IfOk};
ghost use Rattle.spec_value.specs.Table.{named};
ghost use Rattle.moo_code.specs.Slots.{in_slot};
ghost use Rattle.moo_task.specs.Variables.{variable_of};

use moo_value::text::Text;
use moo_value::value::Value;
use std::alloc::{AllocError, Global};
use std::marker::Model;
use std::sync::Arc;

/// A variable with its value.
#[derive(Drop)]
pub struct Variable {
    pub name: Text,
    pub value: Value,
}

/// Variables that a verb has besides those of its program's slots, as a fork has all that the verb had which started it.
/// They are shared, so a clone is a count, and they never change. None take no memory. Of several with one name the first
/// counts.
#[derive(Drop)]
pub struct SharedVariables {
    variables: Option<Arc<Vec<Variable>>>,
}

impl Model for SharedVariables {
    ghost use Rattle.std.specs.Prelude.{List, option_map};
    ghost use Rattle.std.specs.Arc.{arc_value};
    ghost use Rattle.spec_value.specs.Datum.{Datum, Text as Name};
    ghost use Rattle.spec_value.specs.DatumCode.{datum_code};
    ghost use Rattle.spec_world.specs.WorldCode.{named_code};

    ghost Value = { List (Name × Datum) };

    ghost coded = { named_code datum_code };

    ghost use Rattle.moo_task.specs.Variables.{shared_variables};

    ghost view = { λ a. shared_variables (option_map arc_value a.variables) };
}

impl SharedVariables {
    /// No variables.
    pub fn none() -> SharedVariables
        ensures { result ≡ [] }
    {
        SharedVariables { variables: None }
    }

    /// To be shared.
    pub fn new(alloc: Global, variables: Vec<Variable>) -> Result<SharedVariables, AllocError>
        ensures { IfOk result (λ s. s ≡ map variable_of variables.items) }
    {
        if variables.is_empty() {
            return Ok(SharedVariables::none());
        }
        Ok(SharedVariables {
            variables: Some(Arc::new(alloc, variables)?),
        })
    }

    /// What is shared.
    pub fn as_slice(&self) -> &[Variable]
        ensures { map variable_of result.now ≡ self.now }
    {
        match &self.variables {
            Some(variables) => variables.as_slice(),
            None => &[],
        }
    }

    /// The value of a variable, if it is there.
    pub fn find(&self, name: &str) -> Option<&Value>
        ensures { option_map (λ v. v.now) result ≡ named self.now name.now }
    {
        find_among(self.as_slice(), name)
    }
}

impl Clone for SharedVariables {
    ghost is_clone = { λ variables copy. copy ≡ variables };

    fn clone(&self) -> Result<SharedVariables, AllocError> {
        match &self.variables {
            Some(variables) => Ok(SharedVariables {
                variables: Some(variables.clone()?),
            }),
            None => Ok(SharedVariables::none()),
        }
    }
}

fn find_among<'a>(variables: &'a [Variable], name: &str) -> Option<&'a Value>
    ensures { option_map (λ v. v.now) result ≡ named (map variable_of variables.now) name.now }
{
    for variable in variables {
        if name == variable.name.as_str() {
            return Some(&variable.value);
        }
    }
    None
}

/// The value in a slot, which has none where it is not there.
pub fn value_in(slots: &[Option<Value>], slot: usize) -> Option<&Value>
    ensures { option_map (λ v. v.now) result ≡ in_slot (slice_get slots.now slot) }
{
    if slot < slots.len() {
        slots[slot].as_ref()
    } else {
        None
    }
}
