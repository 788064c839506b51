//! What a verb that waits holds along the path to its call.
ghost use Rattle.std.specs.Prelude.{IfOk, IsTrue};
ghost use Rattle.tree_parts.specs.Nodes.{construct_of};
ghost use Rattle.held_values.specs.Descent.{fits_down};

use crate::held::held_fits;
use crate::loops::{loop_count, plus};
use moo_value::value::Value;
use std::alloc::AllocError;
use tree_parts::node::Node;
use tree_parts::parts::part_at;

/// Whether the constructs from one down a path, part numbers counted from 1, hold what they must in those parts: these values, the deepest
/// first.
pub fn path_fits(node: Node<'_>, path: &[usize], held: &[Value]) -> Result<bool, AllocError>
    ensures tells { IfOk result (λ fits. IsTrue fits → IsTrue (fits_down 0 (construct_of node.entry) path.now held.now)) }
    ensures finds { IfOk result (λ fits. IsTrue (fits_down 0 (construct_of node.entry) path.now held.now) → IsTrue fits) }
{
    path_fits_within(0, node, path, held)
}

// With so many loops around. A path is no longer than the tree is deep.
#[tactic(auto, using(crate::proofs::Telling::held_so_many))]
fn path_fits_within(
    around: usize,
    node: Node<'_>,
    path: &[usize],
    held: &[Value],
) -> Result<bool, AllocError>
    ensures tells { IfOk result (λ fits. IsTrue fits → IsTrue (fits_down around (construct_of node.entry) path.now held.now)) }
    ensures finds { IfOk result (λ fits. IsTrue (fits_down around (construct_of node.entry) path.now held.now) → IsTrue fits) }
{
    let Some((number, deeper)) = path.split_first() else {
        return Ok(true);
    };
    let Some(part) = part_at(node, *number) else {
        return Ok(false);
    };
    let Some(tree) = part.tree else {
        return Ok(false);
    };
    let count = part.holds.count()?;
    if held.len() < count {
        return Ok(false);
    }
    let fits = held_fits(around, part.holds, &held[..count])?;
    if !fits {
        return Ok(false);
    }
    let inside = plus(loop_count(node), around)?;
    let deeper_fits = path_fits_within(inside, tree, deeper, &held[count..])?;
    Ok(deeper_fits)
}
