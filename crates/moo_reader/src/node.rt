//! How deep the parts of a tree lie.

ghost use Rattle.std.specs.Prelude.{◌≡◌, ◌<◌, ◌∷◌, ◌++◌, [], length, get_or, IfOk};
ghost use Rattle.spec_program.specs.Reading.{under};
ghost use Rattle.spec_program.specs.KeptNodes as spec;
ghost use Rattle.moo_reader.specs.Nodes.{node_of};

use std::alloc::{AllocError, Global};
use std::collections::VecDeque;
use std::marker::Model;

/// A statement or an expression: how many of them are on the path to it, itself included, and the line where it begins.
#[derive(Clone, Copy, Debug, PartialEq, Eq)]
pub struct Node {
    pub depth: u64,
    pub line: u64,
}

// A node whose depth is the base, less this start.
#[derive(Clone, Copy)]
struct Mark {
    start: u64,
    line: u64,
}

/// Nodes in the order in which they begin. Their depths are told from one base, so that a node more around them all changes nothing but that.
#[derive(Drop)]
pub struct Nodes {
    base: u64,
    marks: VecDeque<Mark>,
}

impl Model for Nodes {
    ghost use Rattle.std.specs.Prelude.{List};
    ghost use Rattle.spec_program.specs.Reading.{Node};
    ghost use Rattle.moo_reader.specs.Marks.{nodes_at, StartWithin};

    ghost Value = { List Node };

    ghost view = { λ a. nodes_at a.base a.marks.items };

    ghost invariant = { λ a. StartWithin a.base a.marks.items };
}

// Half of the numbers are left for depths, and as many for nodes around.
const FIRST_BASE: u64 = 9223372036854775808;

impl Nodes {
    /// No nodes.
    pub fn none(alloc: Global) -> Nodes
        ensures { result ≡ [] }
    {
        Nodes {
            base: FIRST_BASE,
            marks: VecDeque::new(alloc),
        }
    }

    // No nodes, with room for so many.
    fn with_capacity(alloc: Global, count: usize) -> Result<Nodes, AllocError>
        ensures { IfOk result (λ v. v ≡ []) }
    {
        let marks = VecDeque::with_capacity(alloc, count)?;
        Ok(Nodes {
            base: FIRST_BASE,
            marks,
        })
    }

    /// How many they are.
    #[inline(always)]
    pub fn len(&self) -> usize
        ensures { result ≡ length self.now }
    {
        self.marks.len()
    }

    /// The node at a place.
    #[tactic(auto, using(crate::proofs::Marks::node_at_place))]
    #[inline(always)]
    pub fn at(&self, place: usize) -> Node
        requires { place < length self.now }
        ensures { node_of result ≡ get_or self.now place (node_of result) }
    {
        let mark = self.marks[place];
        Node {
            depth: self.base - mark.start,
            line: mark.line,
        }
    }
}

/// A node of this line around others.
#[tactic(auto, using(crate::proofs::Marks::one_around, crate::proofs::Marks::around_within))]
#[inline(always)]
pub fn under(line: u64, nodes: Nodes) -> Result<Nodes, AllocError>
    ensures { IfOk result (λ v. v ≡ under line nodes) }
{
    let Nodes { base, mut marks } = nodes;
    let Some(around) = base.checked_add(1) else {
        return Err(AllocError);
    };
    marks.push_front(Mark { start: base, line })?;
    Ok(Nodes {
        base: around,
        marks,
    })
}

// Nodes with one behind them. A depth beyond the base is a lack of memory.
#[tactic(auto, using(crate::proofs::Marks::one_last, crate::proofs::Marks::last_within))]
#[inline(always)]
fn with_last(nodes: Nodes, node: Node) -> Result<Nodes, AllocError>
    ensures { IfOk result (λ v. v ≡ nodes ++ node_of node ∷ []) }
{
    let Nodes { base, mut marks } = nodes;
    if base < node.depth {
        return Err(AllocError);
    }
    let mark = Mark {
        start: base - node.depth,
        line: node.line,
    };
    marks.push_back(mark)?;
    Ok(Nodes { base, marks })
}

// Nodes with one before them.
#[tactic(auto, using(crate::proofs::Marks::one_first))]
#[inline(always)]
fn with_first(node: Node, nodes: Nodes) -> Result<Nodes, AllocError>
    ensures { IfOk result (λ v. v ≡ node_of node ∷ nodes) }
{
    let Nodes { base, mut marks } = nodes;
    if base < node.depth {
        return Err(AllocError);
    }
    let mark = Mark {
        start: base - node.depth,
        line: node.line,
    };
    marks.push_front(mark)?;
    Ok(Nodes { base, marks })
}

// Copies of others are put behind these nodes.
#[tactic(auto, using(crate::proofs::Places::one_behind, crate::proofs::Places::all_behind))]
fn with_behind(nodes: Nodes, others: &Nodes) -> Result<Nodes, AllocError>
    ensures { IfOk result (λ v. v ≡ nodes ++ others.now) }
{
    let mut all = nodes;
    for place in 0..others.len() {
        all = with_last(all, others.at(place))?;
    }
    Ok(all)
}

// Copies of these nodes are put before others.
#[tactic(auto, using(crate::proofs::Places::one_before, crate::proofs::Places::all_before, crate::proofs::Places::none_before))]
fn with_before(nodes: &Nodes, others: Nodes) -> Result<Nodes, AllocError>
    ensures { IfOk result (λ v. v ≡ nodes.now ++ others) }
{
    let mut all = others;
    let mut rest = nodes.len();
    while 0 < rest {
        rest -= 1;
        all = with_first(nodes.at(rest), all)?;
    }
    Ok(all)
}

/// Nodes, and others behind them. It takes the time of the shorter list.
pub fn followed(nodes: Nodes, others: Nodes) -> Result<Nodes, AllocError>
    ensures { IfOk result (λ v. v ≡ nodes ++ others) }
{
    if nodes.len() < others.len() {
        with_before(&nodes, others)
    } else {
        with_behind(nodes, &others)
    }
}

// Whether a node matters behind others, of which the deepest is at this depth.
fn matters(deepest: u64, node: Node) -> bool
    ensures { result ≡ spec.matters deepest (node_of node) }
{
    deepest < node.depth && !(100 < deepest)
}

// Each node that is kept is deeper than those before it, and none stands behind one that is too deep.
const MOST_KEPT: usize = 101;

/// The nodes that tell where a tree is too deep, whatever is around it.
#[tactic(auto, using(crate::proofs::Places::one_kept, crate::proofs::Places::one_left_out, crate::proofs::Places::none_kept))]
pub fn kept(alloc: Global, nodes: &Nodes) -> Result<Nodes, AllocError>
    ensures { IfOk result (λ v. v ≡ spec.kept nodes.now) }
{
    let mut few = Nodes::with_capacity(alloc, nodes.len().min(MOST_KEPT))?;
    let mut deepest = 0;
    for place in 0..nodes.len() {
        let node = nodes.at(place);
        if matters(deepest, node) {
            few = with_last(few, node)?;
            deepest = node.depth;
        }
    }
    Ok(few)
}
