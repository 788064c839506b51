//! Held values against what is held while a part of a construct is under way.
ghost use Rattle.std.specs.Prelude.{◌≡◌, ◌∷◌, ◌++◌, [], List, suc, length, pos, take, IfOk, IsTrue};
ghost use Rattle.spec_value.specs.Datum.{integer};
ghost use Rattle.spec_program.specs.Place.{Kind, any_list, arm_kinds, codes_kind};
ghost use Rattle.spec_world.specs.WellFormed as spec;
ghost use Rattle.moo_tree.specs.ExpressionView.{codes_of};
ghost use Rattle.moo_tree.specs.StatementView.{arms_of};
ghost use Rattle.tree_parts.specs.Nodes.{holds_of, kinds_of};

use crate::kinds::{is_list, is_zero};
use crate::leaving::leaving_fits;
use crate::walk::{list_walk_fits, range_walk_fits};
use moo_tree::expression::Codes;
use moo_tree::statement::Arm;
use moo_value::value::Value;
use std::alloc::AllocError;
use tree_parts::holds::{Holds, Values, target_arity};

/// Whether values, the deepest first, are what is held, with so many loops around.
pub fn held_fits(around: usize, holds: Holds<'_>, held: &[Value]) -> Result<bool, AllocError>
    ensures tells { IfOk result (λ fits. IsTrue fits → IsTrue (spec.held_fits around (holds_of holds.entry) held.now)) }
    ensures finds { IfOk result (λ fits. IsTrue (spec.held_fits around (holds_of holds.entry) held.now) → IsTrue fits) }
{
    match holds {
        Holds::Values(values) => values_fit(values, held),
        Holds::ListWalk => Ok(list_walk_fits(held)),
        Holds::RangeWalk => Ok(range_walk_fits(held)),
        Holds::WhyLeft => Ok(leaving_fits(around, held)),
    }
}

#[tactic(auto, using(crate::proofs::Telling::as_many_arms))]
fn values_fit(values: Values<'_>, held: &[Value]) -> Result<bool, AllocError>
    ensures tells { IfOk result (λ fits. IsTrue fits → IsTrue (spec.kinds_fit (kinds_of values.entry) held.now)) }
    ensures finds { IfOk result (λ fits. IsTrue (spec.kinds_fit (kinds_of values.entry) held.now) → IsTrue fits) }
{
    match values {
        Values::Any(count) => Ok(held.len() == usize::from(count)),
        Values::AnyAndList(count) => {
            let count = usize::from(count);
            Ok(ends_in_list(count, held))
        }
        Values::Target(target) => {
            let count = target_arity(target)?;
            Ok(held.len() == count)
        }
        Values::TargetAndOne(target) => {
            let count = target_arity(target)?;
            Ok(is_one_more(count, held))
        }
        Values::Codes(codes) => Ok(is_codes(codes, held)),
        Values::Arms(arms) => Ok(held.len() == arms.len() && arms_fit(arms, held)),
        Values::ArmsAndList(arms) => Ok(arms_and_list_fit(arms, held)),
    }
}

fn is_one_more(count: usize, held: &[Value]) -> bool
    ensures tells { IsTrue result → length held.now ≡ suc count }
    ensures finds { length held.now ≡ suc count → IsTrue result }
{
    held.len() > 0 && held.len() - 1 == count
}

// Whether a list comes behind so many values, and nothing behind it.
#[tactic(auto, using(crate::proofs::Telling::one_longer, crate::proofs::Telling::first_kinds))]
fn ends_in_list(count: usize, held: &[Value]) -> bool
    ensures length { IsTrue result → length held.now ≡ suc count }
    ensures finds { (kinds : List Kind) → length kinds ≡ count → IsTrue (spec.kinds_fit (kinds ++ any_list ∷ []) held.now) → IsTrue result }
    ensures first { (kinds : List Kind) → length kinds ≡ count → IsTrue (spec.kinds_fit (kinds ++ any_list ∷ []) held.now) → IsTrue (spec.kinds_fit kinds (take count held.now)) }
    ensures kinds { IsTrue result → (kinds : List Kind) → IsTrue (spec.kinds_fit kinds (take count held.now)) → IsTrue (spec.kinds_fit (kinds ++ any_list ∷ []) held.now) }
{
    is_one_more(count, held) && is_list(&held[count])
}

// Whether a value is what is held of codes.
#[tactic(auto, using(crate::proofs::Telling::zero_kind))]
fn code_fits(codes: &Codes, value: &Value) -> bool
    ensures tells { IsTrue result → IsTrue (spec.kind_fits (codes_kind (codes_of codes.now)) value.now) }
    ensures finds { IsTrue (spec.kind_fits (codes_kind (codes_of codes.now)) value.now) → IsTrue result }
{
    match codes {
        Codes::Any => is_zero(value),
        Codes::Listed(_) => is_list(value),
    }
}

#[tactic(auto, using(crate::proofs::Telling::as_many, crate::proofs::Telling::only_kind))]
fn is_codes(codes: &Codes, held: &[Value]) -> bool
    ensures tells { IsTrue result → IsTrue (spec.kinds_fit (codes_kind (codes_of codes.now) ∷ []) held.now) }
    ensures finds { IsTrue (spec.kinds_fit (codes_kind (codes_of codes.now) ∷ []) held.now) → IsTrue result }
{
    held.len() == 1 && code_fits(codes, &held[0])
}

// A value for each arm.
#[tactic(auto, using(crate::proofs::Telling::arm_at))]
fn arms_fit(arms: &[Arm], held: &[Value]) -> bool
    requires { length held.now ≡ length arms.now }
    ensures tells { IsTrue result → IsTrue (spec.kinds_fit (arm_kinds (arms_of arms.now)) held.now) }
    ensures finds { IsTrue (spec.kinds_fit (arm_kinds (arms_of arms.now)) held.now) → IsTrue result }
{
    for i in 0..arms.len() {
        let arm = &arms[i];
        if !code_fits(&arm.codes, &held[i]) {
            return false;
        }
    }
    true
}

// A value for each arm, and a list.
#[tactic(auto, using(crate::proofs::Telling::arms_count))]
fn arms_and_list_fit(arms: &[Arm], held: &[Value]) -> bool
    ensures tells { IsTrue result → IsTrue (spec.kinds_fit (arm_kinds (arms_of arms.now) ++ any_list ∷ []) held.now) }
    ensures finds { IsTrue (spec.kinds_fit (arm_kinds (arms_of arms.now) ++ any_list ∷ []) held.now) → IsTrue result }
{
    let count = arms.len();
    ends_in_list(count, held) && arms_fit(arms, &held[..count])
}
