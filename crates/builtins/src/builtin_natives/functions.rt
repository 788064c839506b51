//! Calls of built-in functions.
ghost use Rattle.std.specs.Prelude.{◌≡◌, List, IfOk, OnOk};
ghost use Rattle.spec_value.specs.Datum.{Datum};
ghost use Rattle.spec_moo.specs.Scene.{Scene};
ghost use Rattle.spec_moo.specs.NativeEffect.{Caller};
ghost use Rattle.spec_moo.specs.Natives.{native as native_does};
ghost use Rattle.spec_moo.specs.Natives.Rows.{by_row};
ghost use Rattle.rules.specs.Lines.{AreAgreeing};
ghost use Rattle.view.specs.Law.{Goes, Lasts};
ghost use Rattle.builtin_table.specs.Functions.{call_of, row_of_function};
ghost use Rattle.builtins.specs.BuiltinDeedsActing.{ActsFor};

use crate::builtin_natives::perform::perform;
use builtin_table::function::Builtin;
use builtin_table::world_function::WorldFunction;
use builtins_value::function as values;
use builtins_view::builtin_requests::request::read_request;
use moo_task::deeds::Deeds;
use moo_task::effect::NativeEffect;
use moo_task::running::Running;
use moo_value::error::MooError;
use moo_value::text::Text;
use moo_value::value::Value;
use std::alloc::{AllocError, Global};
use view::law::View;

/// The function of a name, if it has one.
pub fn named(name: &Text) -> Option<Builtin>
    ensures { (s : Scene) (c : Caller) (args : List Datum) → native_does s c name.now args ≡ call_of s c result args }
{
    Builtin::from_name(name.as_str())
}

/// What a call of a function does for the verb that runs; of none it raises `E_INVARG`.
pub fn call_function<V: View>(
    alloc: Global,
    view: &mut V,
    deeds: &mut Deeds,
    task: &Running,
    function: Option<Builtin>,
    arguments: Vec<Value>,
) -> Result<NativeEffect, AllocError>
    requires home { V.holds view.old (V.home view.old) }
    requires well_formed { AreAgreeing V.holds V.now view.old }
    ensures lasts { Lasts V.holds V.home V.anchor view.old view.new result }
    ensures does { IfOk result (λ e. Goes V.holds V.now view.old view.new
        (λ before after. ActsFor (λ s c. call_of s c function arguments.items) task.now deeds.old before e deeds.new after)) }
    ensures well_formed { OnOk result (AreAgreeing V.holds V.now view.new) }
{
    match function {
        Some(Builtin::OfValues(function)) => {
            let answer = values::call(alloc, function, arguments)?;
            Ok(NativeEffect::Answers(answer))
        }
        Some(Builtin::OfWorld(function)) => {
            let effect = call_checked(alloc, view, deeds, task, function, arguments.as_slice())?;
            Ok(effect)
        }
        None => Ok(NativeEffect::Answers(Err(MooError::InvalidArgument))),
    }
}

// Of a function of the world: `E_ARGS` for a wrong count, then `E_TYPE` for wrong kinds.
fn call_checked<V: View>(
    alloc: Global,
    view: &mut V,
    deeds: &mut Deeds,
    task: &Running,
    function: WorldFunction,
    arguments: &[Value],
) -> Result<NativeEffect, AllocError>
    requires home { V.holds view.old (V.home view.old) }
    requires well_formed { AreAgreeing V.holds V.now view.old }
    ensures lasts { Lasts V.holds V.home V.anchor view.old view.new result }
    ensures does { IfOk result (λ e. Goes V.holds V.now view.old view.new
        (λ before after. ActsFor (λ s c. by_row s c arguments.now (row_of_function function)) task.now deeds.old before e deeds.new after)) }
    ensures well_formed { OnOk result (AreAgreeing V.holds V.now view.new) }
{
    match function.check(arguments) {
        Ok(()) => {
            let request = read_request(alloc, function, arguments)?;
            let effect = perform(alloc, view, deeds, task, request)?;
            Ok(effect)
        }
        Err(error) => Ok(NativeEffect::Answers(Err(error))),
    }
}
