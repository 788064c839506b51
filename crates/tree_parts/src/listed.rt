//! Parts that are made, and picked from few.
ghost use Rattle.std.specs.Prelude.{◌≡◌, ◌∷◌, [], Some, option_map, replicate};
ghost use Rattle.spec_program.specs.Construct.{of_expr, of_program};
ghost use Rattle.spec_program.specs.Place as spec;
ghost use Rattle.moo_tree.specs.StatementView.{program_of};
ghost use Rattle.tree_parts.specs.Nodes.{construct_of, holds_of, kinds_of};
ghost use Rattle.tree_parts.specs.Parts.{part_of};

use crate::holds::{Holds, Values};
use crate::node::Node;
use crate::parts::Part;
use moo_tree::expression::Expression;
use moo_tree::statement::Statement;

/// A part with a tree, and values that are held beside it.
pub fn beside<'a>(tree: Node<'a>, values: Values<'a>) -> Part<'a>
    ensures { part_of result ≡ spec.part (construct_of tree.entry) (kinds_of values.entry) }
{
    Part {
        tree: Some(tree),
        holds: Holds::Values(values),
    }
}

/// An expression beside so many values of any kind.
pub fn plain<'a>(expression: &'a Expression, held: u8) -> Part<'a>
    ensures { part_of result ≡ spec.part (of_expr expression.now) (replicate held spec.any_value) }
{
    beside(Node::Expression(expression), Values::Any(held))
}

/// Statements, with what is held while they are under way.
pub fn body<'a>(statements: &'a [Statement], holds: Holds<'a>) -> Part<'a>
    ensures { part_of result ≡ record { tree = Some (of_program (program_of statements.now)); held = holds_of holds.entry } }
{
    Part {
        tree: Some(Node::Program(statements)),
        holds,
    }
}

/// What nothing can stand in.
pub fn no_tree<'a>() -> Part<'a>
    ensures { part_of result ≡ spec.no_tree }
{
    Part {
        tree: None,
        holds: Holds::Values(Values::Any(0)),
    }
}

/// The part that has so many before it, of one.
pub fn sole<'a>(part: Part<'a>, index: usize) -> Option<Part<'a>>
    ensures { option_map part_of result ≡ spec.nth (part_of part.entry ∷ []) index }
{
    if index == 0 { Some(part) } else { None }
}

/// The part that has so many before it, of two.
pub fn of_two<'a>(first: Part<'a>, second: Part<'a>, index: usize) -> Option<Part<'a>>
    ensures { option_map part_of result ≡ spec.nth (part_of first.entry ∷ part_of second.entry ∷ []) index }
{
    if index == 0 {
        Some(first)
    } else {
        sole(second, index - 1)
    }
}

/// The part that has so many before it, of three.
pub fn of_three<'a>(
    first: Part<'a>,
    second: Part<'a>,
    third: Part<'a>,
    index: usize,
) -> Option<Part<'a>>
    ensures { option_map part_of result ≡ spec.nth (part_of first.entry ∷ part_of second.entry ∷ part_of third.entry ∷ []) index }
{
    if index == 0 {
        Some(first)
    } else {
        of_two(second, third, index - 1)
    }
}
