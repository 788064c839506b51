//! Built-in functions that wait.
ghost use Rattle.std.specs.Prelude.{◌≡◌};
ghost use Rattle.spec_world.specs.World.{move_native, create_native, recycle_native, eval_native};
ghost use Rattle.spec_world.specs.WellFormed.{native_fits as fits};
ghost use Rattle.moo_task.specs.Frames.{native_of};
ghost use Rattle.held_values.specs.Arguments.{one_object, two_objects, three_objects, one_text};

use crate::kinds::{is_object, is_text};
use moo_task::native::{Native, NativeName};
use moo_value::value::Value;

/// Whether a built-in function that waits is at one of its stages, with arguments of that stage.
pub fn native_fits(native: &Native) -> bool
    ensures { result ≡ fits (native_of native.now).name (native_of native.now).stage (native_of native.now).arguments }
{
    let arguments = native.arguments.as_slice();
    match native.name {
        NativeName::Move => move_fits(native.stage, arguments),
        NativeName::Create => create_fits(native.stage, arguments),
        NativeName::Recycle => recycle_fits(native.stage, arguments),
        NativeName::Eval => eval_fits(native.stage, arguments),
    }
}

#[tactic(auto, using(crate::proofs::Natives::moves_to, crate::proofs::Natives::moves_out, crate::proofs::Natives::moves_in, crate::proofs::Natives::moves_not))]
fn move_fits(stage: u32, arguments: &[Value]) -> bool
    ensures { result ≡ fits move_native stage arguments.now }
{
    match stage {
        1 => are_two_objects(arguments),
        2 | 3 => are_three_objects(arguments),
        _ => false,
    }
}

#[tactic(auto, using(crate::proofs::Natives::creates, crate::proofs::Natives::creates_not))]
fn create_fits(stage: u32, arguments: &[Value]) -> bool
    ensures { result ≡ fits create_native stage arguments.now }
{
    if stage != 1 {
        return false;
    }
    are_two_objects(arguments) || are_three_objects(arguments)
}

#[tactic(auto, using(crate::proofs::Natives::recycles, crate::proofs::Natives::recycles_not))]
fn recycle_fits(stage: u32, arguments: &[Value]) -> bool
    ensures { result ≡ fits recycle_native stage arguments.now }
{
    stage == 1 && is_one_object(arguments)
}

#[tactic(auto, using(crate::proofs::Natives::evaluates, crate::proofs::Natives::evaluates_not))]
fn eval_fits(stage: u32, arguments: &[Value]) -> bool
    ensures { result ≡ fits eval_native stage arguments.now }
{
    stage == 1 && is_one_text(arguments)
}

fn are_three_objects(values: &[Value]) -> bool
    ensures { result ≡ three_objects values.now }
{
    match values.split_first() {
        Some((first, rest)) => is_object(first) && are_two_objects(rest),
        None => false,
    }
}

fn are_two_objects(values: &[Value]) -> bool
    ensures { result ≡ two_objects values.now }
{
    match values.split_first() {
        Some((first, rest)) => is_object(first) && is_one_object(rest),
        None => false,
    }
}

fn is_one_object(values: &[Value]) -> bool
    ensures { result ≡ one_object values.now }
{
    match values.split_first() {
        Some((first, rest)) => is_object(first) && rest.is_empty(),
        None => false,
    }
}

fn is_one_text(values: &[Value]) -> bool
    ensures { result ≡ one_text values.now }
{
    match values.split_first() {
        Some((first, rest)) => is_text(first) && rest.is_empty(),
        None => false,
    }
}
