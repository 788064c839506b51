//! Comparisons of what waits. None takes memory.
ghost use Rattle.std.specs.Prelude.{◌≡◌, ◌↔◌, length, map, IsTrue, option_map};
ghost use Rattle.moo_program.specs.Names.{known};
ghost use Rattle.moo_task.specs.Effects.{waiting_of};
ghost use Rattle.moo_task.specs.Frames.{kept_of, native_name_of, native_of, outer_of};
ghost use Rattle.moo_task.specs.Variables.{variable_of};
ghost use Rattle.moo_task.specs.Sameness.{AgreeAt, AgreeOn, FurtherAgree, SlotsAgree, StandAlike};

use crate::effect::Waiting;
use crate::frame::{Frame, Outer};
use crate::moo_machine::call::Call;
use crate::moo_machine::operands::Operands;
use crate::native::{Native, NativeName};
use crate::outers::Outers;
use crate::start::SharedStart;
use crate::variables::{SharedVariables, Variable, value_in};
use moo_program::names::has_slot_among;
use moo_value::compare::equal;
use moo_value::text::Text;
use moo_value::value::Value;

/// Whether two tasks wait for the same.
pub fn same_waiting(a: &Waiting, b: &Waiting) -> bool
    ensures { IsTrue result ↔ waiting_of a.now ≡ waiting_of b.now }
{
    match (a, b) {
        (Waiting::Forked(x), Waiting::Forked(y)) => x == y,
        (Waiting::Timed(x, v), Waiting::Timed(y, u)) => x == y && equal(v, u),
        (Waiting::Idle, Waiting::Idle) => true,
        (Waiting::ReadingOn(x), Waiting::ReadingOn(y)) => x == y,
        _ => false,
    }
}

/// Whether the same verbs and built-in functions wait.
#[tactic(auto, using(crate::proofs::Stacks::outers_alike, crate::proofs::Stacks::alike_outers))]
pub fn same_outers(a: &Outers, b: &Outers) -> bool
    ensures { IsTrue result ↔ a.now ≡ b.now }
{
    same_stacks(a.as_slice(), b.as_slice())
}

fn same_stacks(xs: &[Outer], ys: &[Outer]) -> bool
    ensures { IsTrue result ↔ map outer_of xs.now ≡ map outer_of ys.now }
{
    if xs.len() != ys.len() {
        return false;
    }
    for i in 0..xs.len() {
        if !same_outer(&xs[i], &ys[i]) {
            return false;
        }
    }
    true
}

fn same_outer(a: &Outer, b: &Outer) -> bool
    ensures { IsTrue result ↔ outer_of a.now ≡ outer_of b.now }
{
    match (a, b) {
        (Outer::Verb(x), Outer::Verb(y)) => same_frame(x, y),
        (Outer::Native(x), Outer::Native(y)) => same_native(x, y),
        _ => false,
    }
}

#[tactic(auto, using(crate::proofs::Sameness::same_frames))]
fn same_frame(a: &Frame, b: &Frame) -> bool
    ensures { IsTrue result ↔ kept_of a.now ≡ kept_of b.now }
{
    stand_alike(a, b) && same_variables(a, b)
}

// The variables of two that stand alike.
#[tactic(auto, using(crate::proofs::Sameness::same_frame_slots))]
fn same_variables(a: &Frame, b: &Frame) -> bool
    requires { StandAlike (kept_of a.now) (kept_of b.now) }
    ensures { IsTrue result ↔ kept_of a.now ≡ kept_of b.now }
{
    same_slots(a.names(), &a.state.slots, &b.state.slots)
        && same_further(a.program.names(), &a.further, &b.further)
}

// All but their variables.
fn stand_alike(a: &Frame, b: &Frame) -> bool
    ensures { IsTrue result ↔ StandAlike (kept_of a.now) (kept_of b.now) }
{
    same_call(&a.call, &b.call)
        && same_start(&a.start, &b.start)
        && a.program.tree().same(b.program.tree())
        && a.state.place == b.state.place
        && same_operands(&a.state.operands, &b.state.operands)
}

fn same_call(a: &Call, b: &Call) -> bool
    ensures { IsTrue result ↔ a.now ≡ b.now }
{
    a.this == b.this
        && a.caller == b.caller
        && a.definer == b.definer
        && a.programmer == b.programmer
        && a.verb.as_str() == b.verb.as_str()
        && a.debug == b.debug
}

fn same_start(a: &SharedStart, b: &SharedStart) -> bool
    ensures { IsTrue result ↔ a.now ≡ b.now }
{
    a.argstr().as_str() == b.argstr().as_str()
        && a.dobj() == b.dobj()
        && a.dobjstr().as_str() == b.dobjstr().as_str()
        && a.prepstr().as_str() == b.prepstr().as_str()
        && a.iobj() == b.iobj()
        && a.iobjstr().as_str() == b.iobjstr().as_str()
}

#[tactic(auto, using(crate::proofs::Stacks::stacks_alike))]
fn same_operands(a: &Operands, b: &Operands) -> bool
    ensures { IsTrue result ↔ a.now ≡ b.now }
{
    same_values(a.above(0), b.above(0))
}

// So many slots, of which those that are not there have no value.
fn same_slots(count: usize, xs: &[Option<Value>], ys: &[Option<Value>]) -> bool
    ensures { IsTrue result ↔ SlotsAgree count xs.now ys.now }
{
    for i in 0..count {
        if !same_value(value_in(xs, i), value_in(ys, i)) {
            return false;
        }
    }
    true
}

// Whether those variables are the same that a program does not name, whose own names these are. Where all are, the time is
// the product of their count with itself and that of the names.
#[tactic(auto, using(crate::proofs::Further::agree_on_any))]
fn same_further(own: &[Text], a: &SharedVariables, b: &SharedVariables) -> bool
    ensures { IsTrue result ↔ FurtherAgree (known own.now) a.now b.now }
{
    agree_on(own, a.as_slice(), a, b) && agree_on(own, b.as_slice(), a, b)
}

// Whether the variables of a list have the same values, unless they have slots.
#[tactic(auto, using(crate::proofs::Further::one_more_agrees, crate::proofs::Further::agrees_there))]
fn agree_on(own: &[Text], variables: &[Variable], a: &SharedVariables, b: &SharedVariables) -> bool
    ensures { IsTrue result ↔ AgreeOn (known own.now) a.now b.now (length variables.now) (map variable_of variables.now) }
{
    for i in 0..variables.len() {
        if !agree_at(own, variables[i].name.as_str(), a, b) {
            return false;
        }
    }
    true
}

fn agree_at(own: &[Text], name: &str, a: &SharedVariables, b: &SharedVariables) -> bool
    ensures { IsTrue result ↔ AgreeAt (known own.now) a.now b.now name.now }
{
    has_slot_among(own, name) || same_value(a.find(name), b.find(name))
}

fn same_value(a: Option<&Value>, b: Option<&Value>) -> bool
    ensures { IsTrue result ↔ option_map (λ v. v.now) a.entry ≡ option_map (λ v. v.now) b.entry }
{
    match (a, b) {
        (Some(x), Some(y)) => equal(x, y),
        (None, None) => true,
        _ => false,
    }
}

fn same_native(a: &Native, b: &Native) -> bool
    ensures { IsTrue result ↔ native_of a.now ≡ native_of b.now }
{
    same_name(a.name, b.name) && a.stage == b.stage && same_values(&a.arguments, &b.arguments)
}

fn same_name(a: NativeName, b: NativeName) -> bool
    ensures { IsTrue result ↔ native_name_of a ≡ native_name_of b }
{
    match (a, b) {
        (NativeName::Move, NativeName::Move)
        | (NativeName::Create, NativeName::Create)
        | (NativeName::Recycle, NativeName::Recycle)
        | (NativeName::Eval, NativeName::Eval) => true,
        _ => false,
    }
}

fn same_values(xs: &[Value], ys: &[Value]) -> bool
    ensures { IsTrue result ↔ xs.now ≡ ys.now }
{
    if xs.len() != ys.len() {
        return false;
    }
    for i in 0..xs.len() {
        if !equal(&xs[i], &ys[i]) {
            return false;
        }
    }
    true
}
