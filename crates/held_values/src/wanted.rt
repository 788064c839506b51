//! What is held on the way to a call.
ghost use Rattle.std.specs.Prelude.{◌≡◌, suc, [], ◌∷◌, ◌++◌, Some, map, option_map, replicate, IfOk, OnOk};
ghost use Rattle.spec_program.specs.Construct.{of_program};
ghost use Rattle.spec_program.specs.Place as spec;
ghost use Rattle.moo_tree.specs.ExpressionView.{codes_of};
ghost use Rattle.moo_tree.specs.StatementView.{arms_of};
ghost use Rattle.tree_parts.specs.Nodes.{construct_of, holds_of, kinds_of};
ghost use Rattle.tree_parts.specs.Parts.{part_of};
ghost use Rattle.held_values.specs.declared.fits.Wanted.TheVariants as wanted;
ghost use Rattle.held_values.specs.Wanted.{of_kind, wanted_in, wanted_down};
ghost use Rattle.held_values.specs.Steps.{step_wanted};

use crate::fits::Wanted;
use crate::loops::{loop_count, plus};
use moo_tree::expression::Codes;
use moo_tree::statement::{Arm, Tree};
use std::alloc::{AllocError, Global};
use tree_parts::holds::{Holds, Values, target_arity};
use tree_parts::node::{Node, is_call};
use tree_parts::parts::{Part, part_at};

/// What is held on the way to a call, the outermost first. None where the path leads to no call. The path has the numbers of
/// parts, counted from 1, the outermost first.
pub fn wanted_at(
    alloc: Global,
    tree: &Tree,
    path: &[usize],
) -> Result<Option<Vec<Wanted>>, AllocError>
    ensures { IfOk result (λ found. option_map (λ w. w.items) found ≡ wanted_down 0 [] (of_program tree.now) path.now) }
{
    let whole = Node::Program(tree.statements());
    wanted_below(alloc, whole, path)
}

// From a construct on, around which no loop is.
#[tactic(auto, using(crate::proofs::Stepping::wanted_from))]
fn wanted_below(
    alloc: Global,
    whole: Node<'_>,
    path: &[usize],
) -> Result<Option<Vec<Wanted>>, AllocError>
    ensures { IfOk result (λ found. option_map (λ w. w.items) found ≡ wanted_down 0 [] (construct_of whole.entry) path.now) }
{
    let mut wanted = Vec::new(alloc);
    let mut node = whole;
    let mut loops = 0;
    for number in path {
        let below = step(&mut wanted, node, *number, loops)?;
        match below {
            None => return Ok(None),
            Some(below) => {
                loops = plus(loops, loop_count(node))?;
                node = below;
            }
        }
    }
    if is_call(node) {
        Ok(Some(wanted))
    } else {
        Ok(None)
    }
}

// The part of a construct, with what the construct holds meanwhile behind what was held already.
fn step<'a>(
    wanted: &mut Vec<Wanted>,
    node: Node<'a>,
    number: usize,
    loops: usize,
) -> Result<Option<Node<'a>>, AllocError>
    ensures { IfOk result (λ below. option_map (λ d. (construct_of d, wanted.new.items)) below ≡ step_wanted loops wanted.old.items (spec.part_at (construct_of node.entry) number)) }
{
    match part_at(node, number) {
        None => Ok(None),
        Some(part) => into_part(wanted, part, loops),
    }
}

fn into_part<'a>(
    wanted: &mut Vec<Wanted>,
    part: Part<'a>,
    loops: usize,
) -> Result<Option<Node<'a>>, AllocError>
    ensures { IfOk result (λ below. option_map (λ d. (construct_of d, wanted.new.items)) below ≡ step_wanted loops wanted.old.items (Some (part_of part.entry))) }
{
    push_holds(wanted, part.holds, loops)?;
    Ok(part.tree)
}

fn push_holds(wanted: &mut Vec<Wanted>, holds: Holds<'_>, loops: usize) -> Result<(), AllocError>
    ensures { OnOk result (wanted.new.items ≡ wanted.old.items ++ wanted_in loops (holds_of holds.entry)) }
{
    match holds {
        Holds::Values(values) => push_values(wanted, values),
        Holds::ListWalk => push_two(wanted, Wanted::WalkedList, Wanted::Turns),
        Holds::RangeWalk => push_two(wanted, Wanted::Current, Wanted::Last),
        Holds::WhyLeft => push(wanted, Wanted::WhyLeft(loops)),
    }
}

fn push(wanted: &mut Vec<Wanted>, one: Wanted) -> Result<(), AllocError>
    ensures { OnOk result (wanted.new.items ≡ wanted.old.items ++ one ∷ []) }
{
    wanted.push(one)?;
    Ok(())
}

#[tactic(auto, using(crate::proofs::Stepping::one_then))]
fn push_two(wanted: &mut Vec<Wanted>, first: Wanted, second: Wanted) -> Result<(), AllocError>
    ensures { OnOk result (wanted.new.items ≡ wanted.old.items ++ first ∷ second ∷ []) }
{
    push(wanted, first)?;
    push(wanted, second)
}

fn push_values(wanted: &mut Vec<Wanted>, values: Values<'_>) -> Result<(), AllocError>
    ensures { OnOk result (wanted.new.items ≡ wanted.old.items ++ map of_kind (kinds_of values.entry)) }
{
    match values {
        Values::Any(count) => push_any(wanted, usize::from(count)),
        Values::AnyAndList(count) => push_any_and_list(wanted, usize::from(count)),
        Values::Target(target) => push_any(wanted, target_arity(target)?),
        Values::TargetAndOne(target) => push_one_more(wanted, target_arity(target)?),
        Values::Codes(codes) => push(wanted, of_codes(codes)),
        Values::Arms(arms) => push_arms(wanted, arms),
        Values::ArmsAndList(arms) => push_arms_and_list(wanted, arms),
    }
}

#[tactic(auto, using(crate::proofs::Stepping::any_more, crate::proofs::Stepping::any_none))]
fn push_any(wanted: &mut Vec<Wanted>, count: usize) -> Result<(), AllocError>
    ensures { OnOk result (wanted.new.items ≡ wanted.old.items ++ map of_kind (replicate count spec.any_value)) }
{
    for _value in 0..count {
        push(wanted, Wanted::Any)?;
    }
    Ok(())
}

#[tactic(auto, using(crate::proofs::Stepping::kinds_then))]
fn push_any_and_list(wanted: &mut Vec<Wanted>, count: usize) -> Result<(), AllocError>
    ensures { OnOk result (wanted.new.items ≡ wanted.old.items ++ map of_kind (replicate count spec.any_value ++ spec.any_list ∷ [])) }
{
    push_any(wanted, count)?;
    push(wanted, Wanted::List)
}

#[tactic(auto, using(crate::proofs::Stepping::any_then))]
fn push_one_more(wanted: &mut Vec<Wanted>, count: usize) -> Result<(), AllocError>
    ensures { OnOk result (wanted.new.items ≡ wanted.old.items ++ map of_kind (replicate (suc count) spec.any_value)) }
{
    push_any(wanted, count)?;
    push(wanted, Wanted::Any)
}

fn push_arms(wanted: &mut Vec<Wanted>, arms: &[Arm]) -> Result<(), AllocError>
    ensures { OnOk result (wanted.new.items ≡ wanted.old.items ++ map of_kind (spec.arm_kinds (arms_of arms.now))) }
{
    for arm in arms {
        push(wanted, of_codes(&arm.codes))?;
    }
    Ok(())
}

#[tactic(auto, using(crate::proofs::Stepping::kinds_then))]
fn push_arms_and_list(wanted: &mut Vec<Wanted>, arms: &[Arm]) -> Result<(), AllocError>
    ensures { OnOk result (wanted.new.items ≡ wanted.old.items ++ map of_kind (spec.arm_kinds (arms_of arms.now) ++ spec.any_list ∷ [])) }
{
    push_arms(wanted, arms)?;
    push(wanted, Wanted::List)
}

fn of_codes(codes: &Codes) -> Wanted
    ensures { result ≡ of_kind (spec.codes_kind (codes_of codes.now)) }
{
    match codes {
        Codes::Any => Wanted::AllCodes,
        Codes::Listed(_) => Wanted::List,
    }
}
