//! The names of the variables of a verb under way.
ghost use Rattle.std.specs.Prelude.{◌≡◌, map, IsTrue};
ghost use Rattle.std.specs.List.{list_all};
ghost use Rattle.spec_value.specs.Table.{is_named};
ghost use Rattle.spec_world.specs.WellFormed as spec;
ghost use Rattle.moo_task.specs.Frames.{kept_of};
ghost use Rattle.moo_task.specs.Variables.{variable_of};
ghost use Rattle.world_checks.specs.Naming.{name_fits as fits};

use crate::held_checks::name::is_variable;
use moo_task::frame::Frame;
use moo_task::variables::Variable;
use moo_value::text::Text;

/// Whether the variables of a verb have names that a program can write. They are in the order of their names.
#[tactic(auto, using(crate::proofs::Names::all_sorted, crate::proofs::Names::named_so))]
pub fn variables_fit(frame: &Frame) -> bool
    ensures order { IsTrue (is_named (kept_of frame.now).variables) }
    ensures names { result ≡ list_all (λ e. spec.is_variable e.0) (kept_of frame.now).variables }
{
    names_fit(frame, frame.program.names()) && further_fit(frame, frame.further.as_slice())
}

fn names_fit(frame: &Frame, names: &[Text]) -> bool
    ensures { result ≡ list_all (fits (kept_of frame.now).variables) names.now }
{
    for name in names {
        if !name_fits(frame, name.as_str()) {
            return false;
        }
    }
    true
}

fn further_fit(frame: &Frame, variables: &[Variable]) -> bool
    ensures { result ≡ list_all (λ e. fits (kept_of frame.now).variables e.0) (map variable_of variables.now) }
{
    for variable in variables {
        if !name_fits(frame, variable.name.as_str()) {
            return false;
        }
    }
    true
}

// Whether a program can write a name, or there is no variable of that name with a value.
fn name_fits(frame: &Frame, name: &str) -> bool
    ensures { result ≡ fits (kept_of frame.now).variables name.now }
{
    is_variable(name) || frame.variable(name).is_none()
}
