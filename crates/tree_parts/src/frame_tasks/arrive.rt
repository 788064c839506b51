//! What stands at a path of a tree.
ghost use Rattle.std.specs.Prelude.{◌≡◌, option_map, IfOk};
ghost use Rattle.spec_program.specs.Construct.{of_program};
ghost use Rattle.spec_program.specs.Place as spec;
ghost use Rattle.tree_parts.specs.Arriving.{arrives};
ghost use Rattle.moo_code.specs.Paths.{past as past_of};
ghost use Rattle.tree_parts.specs.Parts.{part_of};
ghost use Rattle.tree_parts.specs.Nodes.{construct_of};
ghost use Rattle.tree_parts.specs.Arrived.{below_of, is_call_there, step_of, with_left};

use crate::node::{Node, is_call};
use crate::parts::{Part, part_at};
use moo_tree::statement::Tree;
use std::alloc::AllocError;

/// Whether a path leads to a call, past constructs that hold so many values in all.
pub fn leads_to_call(tree: &Tree, path: &[usize], count: usize) -> Result<bool, AllocError>
    ensures { IfOk result (λ so. so ≡ is_call_there (arrives (of_program tree.now) path.now count)) }
{
    let whole = Node::Program(tree.statements());
    let found = arrive(whole, path, count)?;
    match found {
        Some(node) => Ok(is_call(node)),
        None => Ok(false),
    }
}

// What stands at a path, if the constructs on the way hold so many values in all.
#[tactic(auto, using(crate::proofs::Descent::arrives_from))]
fn arrive<'a>(node: Node<'a>, path: &[usize], count: usize) -> Result<Option<Node<'a>>, AllocError>
    ensures { IfOk result (λ found. option_map construct_of found ≡ arrives (construct_of node.entry) path.now count) }
{
    let mut node = node;
    let mut left = count;
    for number in path {
        let below = step(node, *number, left)?;
        match below {
            None => return Ok(None),
            Some(below) => {
                node = below.node;
                left = below.left;
            }
        }
    }
    if left > 0 {
        return Ok(None);
    }
    Ok(Some(node))
}

/// What stands below a construct, and how many values are left for what is below that.
#[derive(Clone, Copy)]
pub struct Below<'a> {
    pub node: Node<'a>,
    pub left: usize,
}

fn step<'a>(node: Node<'a>, number: usize, left: usize) -> Result<Option<Below<'a>>, AllocError>
    ensures { IfOk result (λ below. option_map below_of below ≡ step_of (spec.part_at (construct_of node.entry) number) left) }
{
    match part_at(node, number) {
        Some(part) => into_part(part, left),
        None => Ok(None),
    }
}

fn into_part<'a>(part: Part<'a>, left: usize) -> Result<Option<Below<'a>>, AllocError>
    ensures { IfOk result (λ below. option_map below_of below ≡ step_of (Some (part_of part.entry)) left) }
{
    match part.tree {
        Some(node) => {
            let held = part.holds.count()?;
            Ok(behind(node, held, left))
        }
        None => Ok(None),
    }
}

fn behind<'a>(node: Node<'a>, held: usize, left: usize) -> Option<Below<'a>>
    ensures { option_map below_of result ≡ with_left (construct_of node.entry) (past_of held left) }
{
    match past(held, left) {
        Some(left) => Some(Below { node, left }),
        None => None,
    }
}

// So many behind others.
#[tactic(auto, using(crate::proofs::Offsets::past_before, crate::proofs::Offsets::past_behind))]
fn past(count: usize, whole: usize) -> Option<usize>
    ensures { result ≡ past_of count whole }
{
    if whole < count {
        return None;
    }
    Some(whole - count)
}
