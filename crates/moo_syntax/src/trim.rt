//! A reader keeps of what is too deep only where it is.

ghost use Rattle.std.specs.Prelude.{IfOk};
ghost use Rattle.reader_frames.specs.StateView.{state_of};
ghost use Rattle.moo_syntax.specs.StandsFor.{StandsFor, PartStandsFor, NextStandsFor};

use moo_reader::found::{Braces, Items, Operand};
use moo_reader::trim::trimmed as trimmed_expression;
use reader_frames::state::{BeforeOperators, BeforeSteps, Next, Part, State};
use reader_trim::block::{trimmed_arms, trimmed_block, trimmed_branches, trimmed_statement};
use reader_trim::expression::{trimmed_arguments, trimmed_codes, trimmed_items};
use reader_trim::operand::trimmed_operand;
use std::alloc::{AllocError, Global};

fn trimmed_part(alloc: Global, part: Part) -> Result<Part, AllocError>
    ensures { IfOk result (λ q. PartStandsFor part q) }
{
    match part {
        Part::Expression(found) => {
            let found = trimmed_expression(alloc, found)?;
            Ok(Part::Expression(found))
        }
        Part::Operand(operand) => {
            let operand = trimmed_operand(alloc, operand)?;
            Ok(Part::Operand(operand))
        }
        Part::Arguments(arguments) => {
            let few = trimmed_arguments(alloc, Box::into_inner(arguments))?;
            let arguments = Box::new(alloc, few)?;
            Ok(Part::Arguments(arguments))
        }
        Part::Items(items) => {
            let few = trimmed_items(alloc, Box::into_inner(items))?;
            let items = Box::new(alloc, few)?;
            Ok(Part::Items(items))
        }
        Part::Codes(codes) => {
            let few = trimmed_codes(alloc, Box::into_inner(codes))?;
            let codes = Box::new(alloc, few)?;
            Ok(Part::Codes(codes))
        }
        Part::Statement(statement) => {
            let few = trimmed_statement(alloc, Box::into_inner(statement))?;
            let statement = Box::new(alloc, few)?;
            Ok(Part::Statement(statement))
        }
        Part::Block(block) => {
            let few = trimmed_block(alloc, Box::into_inner(block))?;
            let block = Box::new(alloc, few)?;
            Ok(Part::Block(block))
        }
        Part::Branches(branches) => {
            let few = trimmed_branches(alloc, Box::into_inner(branches))?;
            let branches = Box::new(alloc, few)?;
            Ok(Part::Branches(branches))
        }
        Part::Arms(arms) => {
            let few = trimmed_arms(alloc, Box::into_inner(arms))?;
            let arms = Box::new(alloc, few)?;
            Ok(Part::Arms(arms))
        }
    }
}

#[tactic(auto, using(crate::proofs::Trimmed::same_next))]
fn trimmed_next(alloc: Global, next: Next) -> Result<Next, AllocError>
    ensures { IfOk result (λ x. NextStandsFor next x) }
{
    match next {
        Next::Found(part) => {
            let part = trimmed_part(alloc, part)?;
            Ok(Next::Found(part))
        }
        Next::Steps(before) => {
            let BeforeSteps { brackets, operand } = before;
            let operand = trimmed_operand(alloc, operand)?;
            Ok(Next::Steps(BeforeSteps { brackets, operand }))
        }
        Next::Operators(before) => {
            let BeforeOperators {
                brackets,
                level,
                left,
            } = before;
            let left = trimmed_expression(alloc, left)?;
            Ok(Next::Operators(BeforeOperators {
                brackets,
                level,
                left,
            }))
        }
        other => Ok(other),
    }
}

// So many nodes are left as they are: a tree is no deeper than it has nodes, and what is trimmed has 101 at most.
const ENOUGH: usize = 512;

/// Whether what was read has more nodes than are left as they are.
pub fn is_long(next: &Next) -> bool {
    match next {
        Next::Found(part) => is_long_part(part),
        Next::Steps(before) => ENOUGH < operand_nodes(&before.operand),
        Next::Operators(before) => ENOUGH < before.left.whole.nodes.len(),
        _ => false,
    }
}

fn is_long_part(part: &Part) -> bool {
    let count = match part {
        Part::Expression(found) => found.whole.nodes.len(),
        Part::Operand(operand) => operand_nodes(operand),
        Part::Arguments(arguments) => arguments.nodes.len(),
        Part::Items(items) => item_nodes(items),
        Part::Codes(codes) => codes.nodes.len(),
        Part::Statement(statement) => statement.nodes.len(),
        Part::Block(block) => block.nodes.len(),
        Part::Branches(branches) => branches.nodes.len(),
        Part::Arms(arms) => arms.nodes.len(),
    };
    ENOUGH < count
}

fn operand_nodes(operand: &Operand) -> usize {
    let braces = match &operand.whole.braces {
        Braces::NoScatter => 0,
        Braces::PerhapsScatter(scattering) => scattering.nodes.len(),
        Braces::SurelyScatter(scattering) => scattering.nodes.len(),
    };
    operand.whole.nodes.len().max(braces)
}

fn item_nodes(items: &Items) -> usize {
    items.arguments.nodes.len().max(items.default_nodes.len())
}

/// The same state, with few nodes of what was read, and without trees that are too deep.
pub fn trimmed(alloc: Global, state: State) -> Result<State, AllocError>
    ensures { IfOk result (λ s. StandsFor (state_of state) (state_of s)) }
{
    let State { next, begun, left } = state;
    let next = trimmed_next(alloc, next)?;
    Ok(State { next, begun, left })
}
