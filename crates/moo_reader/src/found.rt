//! What was read.

ghost use Rattle.std.specs.Prelude.{◌≡◌, IfOk};
ghost use Rattle.moo_reader.specs.Views.{found_of, operand_of, target_if, braces_of};

use crate::node::Nodes;
use moo_tree::expression::{Argument, Codes, Expression, Item};
use moo_value::operator::BinaryOperator;
use moo_value::text::Text;
use std::alloc::{AllocError, Global};

/// A tree, the line of its first token, its parentheses included, and the nodes in it.
/// Of an operand it tells besides whether it may be assigned to, whether its last step is a range, and what its braces may be.
#[derive(Drop)]
pub struct Whole {
    pub line: u64,
    pub tree: Expression,
    pub nodes: Nodes,
    pub is_target: bool,
    pub ranged: bool,
    pub braces: Braces,
}

/// An expression.
#[derive(Drop)]
pub struct Found {
    pub whole: Box<Whole>,
}

/// Arguments, the last one first.
#[derive(Drop)]
pub struct Arguments {
    pub reversed: Vec<Argument>,
    pub nodes: Nodes,
}

/// Items of a scatter, and the nodes of their defaults.
#[derive(Drop)]
pub struct Scattering {
    pub items: Vec<Item>,
    pub nodes: Nodes,
}

/// What braces may be beside a list.
#[derive(Drop)]
pub enum Braces {
    NoScatter,
    PerhapsScatter(Box<Scattering>),
    SurelyScatter(Box<Scattering>),
}

/// What stands before operators.
#[derive(Drop)]
pub struct Operand {
    pub whole: Box<Whole>,
}

/// What the items so far allow: a list, a scatter; and whether one of them takes the rest.
#[derive(Clone, Copy, Debug, PartialEq, Eq)]
pub struct Allowed {
    pub as_list: bool,
    pub as_scatter: bool,
    pub has_rest: bool,
}

/// Items of braces, the last one first: as arguments of a list, and as items of a scatter.
#[derive(Drop)]
pub struct Items {
    pub allowed: Allowed,
    pub arguments: Arguments,
    pub reversed: Vec<Item>,
    pub default_nodes: Nodes,
}

/// An item of braces that was read, before those behind it. Names are as they are written.
#[derive(Drop)]
pub enum BracedItem {
    /// With its line.
    Bare(Text, u64),
    /// With its line.
    BareRest(Text, u64),
    BareOptional(Text),
    WithDefault(Text, Found),
    /// Spliced or not.
    Other(bool, Found),
}

/// The codes that a caught expression names.
#[derive(Drop)]
pub struct FoundCodes {
    pub tree: Codes,
    pub nodes: Nodes,
}

/// What stands between two expressions.
#[derive(Clone, Copy, Debug, PartialEq, Eq)]
pub enum Join {
    Operator(BinaryOperator),
    Both,
    Either,
}

/// An expression out of its box.
#[derive(Drop)]
pub struct Parts {
    pub line: u64,
    pub tree: Expression,
    pub nodes: Nodes,
}

/// Takes an expression out of its box.
#[inline(always)]
pub fn out_of_box(found: Found) -> Parts
    ensures line { result.line ≡ (found_of found).line }
    ensures tree { result.tree ≡ (found_of found).tree }
    ensures nodes { result.nodes ≡ (found_of found).nodes }
{
    let Whole {
        line,
        tree,
        nodes,
        ..
    } = Box::into_inner(found.whole);
    Parts { line, tree, nodes }
}

/// An expression in its box.
#[inline(always)]
pub fn in_box(alloc: Global, line: u64, tree: Expression, nodes: Nodes) -> Result<Found, AllocError>
    ensures { IfOk result (λ e. found_of e ≡ record { tree = tree; line = line; nodes = nodes }) }
{
    let whole = Box::new(
        alloc,
        Whole {
            line,
            tree,
            nodes,
            is_target: false,
            ranged: false,
            braces: Braces::NoScatter,
        },
    )?;
    Ok(Found { whole })
}

/// An expression as an operand: whether it may be assigned to, whether its last step is a range, and what its braces may be.
#[inline(always)]
pub fn as_operand(found: Found, is_target: bool, ranged: bool, braces: Braces) -> Operand
    ensures { operand_of result ≡ record {
      found = found_of found;
      target = target_if is_target (found_of found).tree;
      ranged = ranged;
      braces = braces_of braces;
    } }
{
    let Found { mut whole } = found;
    whole.is_target = is_target;
    whole.ranged = ranged;
    whole.braces = braces;
    Operand { whole }
}
