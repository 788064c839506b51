//! Operands that were read, with the few nodes that tell where they are too deep.

ghost use Rattle.std.specs.Prelude.{IfOk};
ghost use Rattle.spec_program.specs.Similar.{SimilarOperand, SimilarBraces};
ghost use Rattle.moo_reader.specs.Views.{whole_of, operand_of, braces_of};
ghost use Rattle.reader_trim.specs.Shallow.{IsFew};

use crate::shallow::{shallow_list, shallow_operand};
use moo_reader::found::{Braces, Operand, Scattering, Whole};
use moo_reader::node::kept;
use std::alloc::{AllocError, Global};

// A scatter, or one without items.
fn trimmed_scattering(alloc: Global, scattering: Scattering) -> Result<Scattering, AllocError>
    ensures { IfOk result (λ s. IsFew scattering s) }
{
    let Scattering { items, nodes } = scattering;
    let few = kept(alloc, &nodes)?;
    let items = shallow_list(alloc, items, &nodes);
    Ok(Scattering { items, nodes: few })
}

#[tactic(auto, using(crate::proofs::Few::not_scattered))]
fn trimmed_braces(alloc: Global, braces: Braces) -> Result<Braces, AllocError>
    ensures { IfOk result (λ b. SimilarBraces (braces_of braces) (braces_of b)) }
{
    match braces {
        Braces::NoScatter => Ok(Braces::NoScatter),
        Braces::PerhapsScatter(scattering) => {
            let few = trimmed_scattering(alloc, Box::into_inner(scattering))?;
            let boxed = Box::new(alloc, few)?;
            Ok(Braces::PerhapsScatter(boxed))
        }
        Braces::SurelyScatter(scattering) => {
            let few = trimmed_scattering(alloc, Box::into_inner(scattering))?;
            let boxed = Box::new(alloc, few)?;
            Ok(Braces::SurelyScatter(boxed))
        }
    }
}

// What may stand in the place of an operand out of its box.
fn trimmed_whole(alloc: Global, whole: Whole) -> Result<Whole, AllocError>
    ensures { IfOk result (λ w. SimilarOperand (whole_of whole) (whole_of w)) }
{
    let Whole {
        line,
        tree,
        nodes,
        is_target,
        ranged,
        braces,
    } = whole;
    let few = kept(alloc, &nodes)?;
    let tree = shallow_operand(alloc, is_target, tree, &nodes)?;
    let braces = trimmed_braces(alloc, braces)?;
    Ok(Whole {
        line,
        tree,
        nodes: few,
        is_target,
        ranged,
        braces,
    })
}

/// An operand that may stand in the place of this one.
pub fn trimmed_operand(alloc: Global, operand: Operand) -> Result<Operand, AllocError>
    ensures { IfOk result (λ o. SimilarOperand (operand_of operand) (operand_of o)) }
{
    let few = trimmed_whole(alloc, Box::into_inner(operand.whole))?;
    let whole = Box::new(alloc, few)?;
    Ok(Operand { whole })
}
