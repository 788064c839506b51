//! The parts of a construct, by their numbers.
ghost use Rattle.std.specs.Prelude.{◌≡◌, option_map};
ghost use Rattle.spec_program.specs.Place as spec;
ghost use Rattle.tree_parts.specs.Nodes.{construct_of};
ghost use Rattle.tree_parts.specs.Parts.{part_of};

use crate::expression_parts::{expression_part, target_part};
use crate::holds::Holds;
use crate::listed::{plain, sole};
use crate::node::Node;
use crate::statement_parts::{program_part, statement_part};

/// A part of a construct: what stands in it, if anything can, and what is held while it is under way.
#[derive(Clone, Copy)]
pub struct Part<'a> {
    pub tree: Option<Node<'a>>,
    pub holds: Holds<'a>,
}

/// The part of a construct with a number, counted from 1 as written.
pub fn part_at<'a>(node: Node<'a>, number: usize) -> Option<Part<'a>>
    ensures { option_map part_of result ≡ spec.part_at (construct_of node.entry) number }
{
    if number == 0 {
        return None;
    }
    let index = number - 1;
    match node {
        Node::Expression(expression) => expression_part(expression, index),
        Node::Target(target) => target_part(target, index),
        Node::Default(_, value) => sole(plain(value, 0), index),
        Node::Statement(statement) => statement_part(statement, index),
        Node::Program(statements) => program_part(statements, index),
    }
}
