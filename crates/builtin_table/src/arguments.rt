//! The arguments of a call.
ghost use Rattle.std.specs.Prelude.{◌≡◌, [], map, OnOk};
ghost use Rattle.spec_moo.specs.Natives.Rows.{all_fit};
ghost use Rattle.builtin_table.specs.Functions.{AreChecked, row_of_function};
ghost use Rattle.builtin_table.specs.Sorts.{Fit, sort_of};

use crate::sort::Sort;
use crate::world_function::WorldFunction;
use moo_value::error::MooError;
use moo_value::value::Value;

#[tactic(auto, using(crate::proofs::Fitting::all_fit_in_turn))]
impl WorldFunction {
    /// Whether it takes these arguments: `E_ARGS` for a wrong count, then `E_TYPE` for wrong kinds.
    pub fn check(self, arguments: &[Value]) -> Result<(), MooError>
        ensures said { AreChecked self arguments.now result }
        ensures fit { OnOk result (Fit (row_of_function self).wanted (row_of_function self).further arguments.now) }
    {
        let sorts = self.sorts();
        if arguments.len() < self.wanted() || arguments.len() > sorts.len() {
            return Err(MooError::WrongArgumentCount);
        }
        if !all_of(sorts, arguments) {
            return Err(MooError::TypeMismatch);
        }
        Ok(())
    }
}

// Whether each is of the sort at its place.
fn all_of(sorts: &[Sort], arguments: &[Value]) -> bool
    ensures { result ≡ all_fit [] (map sort_of sorts.now) arguments.now }
{
    for (index, argument) in arguments.iter().enumerate() {
        match sorts.get(index) {
            Some(sort) if sort.fits(argument) => {}
            _ => return false,
        }
    }
    true
}
