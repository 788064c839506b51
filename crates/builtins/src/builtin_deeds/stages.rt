//! How functions go on that have waited for a verb.
ghost use Rattle.std.specs.Prelude.{◌≡◌, ℕ, IfOk};
ghost use Rattle.spec_value.specs.Datum.{Datum};
ghost use Rattle.spec_world.specs.World.{move_native, recycle_native};
ghost use Rattle.spec_moo.specs.Scene.{Scene};
ghost use Rattle.spec_moo.specs.NativeEffect.{Caller};
ghost use Rattle.spec_moo.specs.Natives.{native_turn};
ghost use Rattle.spec_moo.specs.Natives.Objects.{new_object, staged};
ghost use Rattle.moo_task.specs.Frames.{native_of};
ghost use Rattle.builtins.specs.Stages.{stage_does, number_of, one_object as one_object_of, two_objects as two_objects_of, three_objects as three_objects_of};

use moo_task::native::{Native, NativeName};
use moo_value::value::{Shown, Value};
use std::alloc::AllocError;

/// How a function goes on.
#[derive(Drop)]
pub enum Stage {
    /// `eval`, whose program has ended.
    Evaluated,
    /// `create`, which gives this.
    Created(Value),
    /// `recycle` of an object.
    Recycled(i32),
    /// `move` of an object to a place that was asked.
    Asked(i32, i32),
    /// `move` of an object to a place, from one that it has left and that was told so.
    Left(i32, i32, i32),
    /// There is nothing left to do.
    Ended,
}

/// The stage of a function that has waited.
#[tactic(auto, unfolding(spec_moo::specs::Natives::native_turn))]
pub fn stage_of(native: &Native) -> Result<Stage, AllocError>
    ensures { IfOk result (λ q. (s : Scene) (c : Caller) (v : Datum) → native_turn s c (native_of native.now) v ≡ stage_does q s c v) }
{
    let arguments = native.arguments.as_slice();
    match native.name {
        NativeName::Eval => Ok(Stage::Evaluated),
        NativeName::Create => Ok(Stage::Created(last(arguments)?)),
        NativeName::Recycle => Ok(recycle_stage(arguments)),
        NativeName::Move => Ok(move_stage(native.stage, arguments)),
    }
}

// The last argument, 0 where there is none.
#[tactic(auto, using(crate::proofs::Last::last_there, crate::proofs::Last::none_there))]
fn last(arguments: &[Value]) -> Result<Value, AllocError>
    ensures { IfOk result (λ v. v ≡ new_object arguments.now) }
{
    let count = arguments.len();
    if count == 0 {
        return Ok(Value::integer(0));
    }
    arguments[count - 1].clone()
}

#[tactic(auto, using(crate::proofs::Staged::recycled_so))]
fn recycle_stage(arguments: &[Value]) -> Stage
    ensures { (s : Scene) (c : Caller) (n : ℕ) (v : Datum) → staged s c recycle_native n arguments.now v ≡ stage_does result s c v }
{
    match one_object(arguments) {
        Some(object) => Stage::Recycled(object),
        None => Stage::Ended,
    }
}

#[tactic(auto, using(crate::proofs::Staged::asked_so, crate::proofs::Staged::left_so, crate::proofs::Staged::moved_so))]
fn move_stage(stage: u32, arguments: &[Value]) -> Stage
    ensures { (s : Scene) (c : Caller) (v : Datum) → staged s c move_native stage arguments.now v ≡ stage_does result s c v }
{
    match stage {
        1 => match two_objects(arguments) {
            Some((what, place)) => Stage::Asked(what, place),
            None => Stage::Ended,
        },
        2 => match three_objects(arguments) {
            Some((what, place, before)) => Stage::Left(what, place, before),
            None => Stage::Ended,
        },
        _ => Stage::Ended,
    }
}

fn one_object(arguments: &[Value]) -> Option<i32>
    ensures { result ≡ one_object_of arguments.now }
{
    let [object] = arguments else { return None };
    number(object)
}

fn two_objects(arguments: &[Value]) -> Option<(i32, i32)>
    ensures { result ≡ two_objects_of arguments.now }
{
    let [first, second] = arguments else {
        return None;
    };
    Some((number(first)?, number(second)?))
}

fn three_objects(arguments: &[Value]) -> Option<(i32, i32, i32)>
    ensures { result ≡ three_objects_of arguments.now }
{
    let [first, second, third] = arguments else {
        return None;
    };
    Some((number(first)?, number(second)?, number(third)?))
}

// The number of an object.
fn number(value: &Value) -> Option<i32>
    ensures { result ≡ number_of value.now }
{
    match value.shown() {
        Shown::Object(number) => Some(number),
        _ => None,
    }
}
