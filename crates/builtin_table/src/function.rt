//! The built-in functions by their names.
ghost use Rattle.std.specs.Prelude.{◌≡◌, List};
ghost use Rattle.spec_value.specs.Datum.{Datum};
ghost use Rattle.spec_moo.specs.Scene.{Scene};
ghost use Rattle.spec_moo.specs.NativeEffect.{Caller};
ghost use Rattle.spec_moo.specs.Natives.{native};
ghost use Rattle.builtin_table.specs.Functions.{call_of};

use crate::world_function::WorldFunction;
use builtins_value::function::PureFunction;

/// A built-in function.
#[derive(Clone, Copy, PartialEq, Eq, Debug)]
pub enum Builtin {
    /// Of values alone.
    OfValues(PureFunction),
    OfWorld(WorldFunction),
}

#[tactic(auto, using(crate::proofs::Rows::value_called, crate::proofs::Rows::world_called, crate::proofs::Rows::none_called))]
impl Builtin {
    /// The function of a name in lower case. A call of a name that none has raises `E_INVARG`.
    pub fn from_name(name: &str) -> Option<Builtin>
        ensures { (s : Scene) (c : Caller) (args : List Datum) → native s c name.now args ≡ call_of s c result args }
    {
        if let Some(function) = PureFunction::from_name(name) {
            return Some(Builtin::OfValues(function));
        }
        match WorldFunction::from_name(name) {
            Some(function) => Some(Builtin::OfWorld(function)),
            None => None,
        }
    }
}
