//! Functions that take arguments besides those that they want.
ghost use Rattle.std.specs.Prelude.{◌≡◌, [], ◌∷◌, IfOk};
ghost use Rattle.spec_moo.specs.Natives.Rows.{an_integer, an_object, a_text, any_value};
ghost use Rattle.builtin_table.specs.Sorts.{Fit};
ghost use Rattle.builtin_table.specs.declared.world_function.WorldFunction.TheVariants.{Create as CreateOf, Suspend as SuspendOf, Resume as ResumeOf, Raise as RaiseOf, Random as RandomOf};
ghost use Rattle.builtins_view.specs.Requests.{acting_of, calling_of, own_of};

use crate::builtin_requests::acting::Acting;
use crate::builtin_requests::arguments::{as_integer, as_object, as_text};
use crate::builtin_requests::calling::Calling;
use crate::builtin_requests::own::Own;
use moo_value::value::Value;
use std::alloc::{AllocError, Global};

/// A call of `create`.
pub fn creating(arguments: &[Value]) -> Calling
    requires { Fit (an_object ∷ []) (an_object ∷ []) arguments.now }
    ensures { calling_of result ≡ (CreateOf, arguments.now) }
{
    match arguments {
        [parent] => Calling::Create(as_object(parent)),
        [parent, owner] => Calling::CreateFor(as_object(parent), as_object(owner)),
        _ => unreachable!(),
    }
}

/// A call of `suspend`.
pub fn suspending(arguments: &[Value]) -> Own
    requires { Fit [] (an_integer ∷ []) arguments.now }
    ensures { own_of result ≡ (SuspendOf, arguments.now) }
{
    match arguments {
        [] => Own::Suspend,
        [seconds] => Own::SuspendFor(as_integer(seconds)),
        _ => unreachable!(),
    }
}

/// A call of `random`.
pub fn random(arguments: &[Value]) -> Own
    requires { Fit [] (an_integer ∷ []) arguments.now }
    ensures { own_of result ≡ (RandomOf, arguments.now) }
{
    match arguments {
        [] => Own::Random,
        [greatest] => Own::RandomTo(as_integer(greatest)),
        _ => unreachable!(),
    }
}

/// A call of `resume`.
pub fn resuming(arguments: &[Value]) -> Result<Acting, AllocError>
    requires { Fit (an_integer ∷ []) (any_value ∷ []) arguments.now }
    ensures { IfOk result (λ q. acting_of q ≡ (ResumeOf, arguments.now)) }
{
    match arguments {
        [id] => Ok(Acting::Resume(as_integer(id))),
        [id, value] => {
            let value = value.clone()?;
            Ok(Acting::ResumeWith(as_integer(id), value))
        }
        _ => unreachable!(),
    }
}

/// A call of `raise`.
pub fn raising(alloc: Global, arguments: &[Value]) -> Result<Own, AllocError>
    requires { Fit (any_value ∷ []) (a_text ∷ any_value ∷ []) arguments.now }
    ensures { IfOk result (λ q. own_of q ≡ (RaiseOf, arguments.now)) }
{
    match arguments {
        [code] => {
            let code = code.clone()?;
            Ok(Own::Raise(code))
        }
        [code, message] => {
            let code = code.clone()?;
            let message = as_text(alloc, message)?;
            Ok(Own::RaiseTold(code, message))
        }
        [code, message, value] => {
            let code = code.clone()?;
            let message = as_text(alloc, message)?;
            let value = value.clone()?;
            Ok(Own::RaiseWith(code, message, value))
        }
        _ => unreachable!(),
    }
}
