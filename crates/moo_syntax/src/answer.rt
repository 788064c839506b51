//! From statements that were read to the program that they are: first how deep they nest, then their loops.

ghost use Rattle.std.specs.Prelude.{◌≡◌};
ghost use Rattle.spec_program.specs.ReadPrograms as by;
ghost use Rattle.moo_reader.specs.BlockViews.{strays_of, block_found};
ghost use Rattle.moo_syntax.specs.Answer.{IsAnswer, first_line};

use moo_reader::block::{Block, Stray};
use moo_reader::trim::too_deep;
use moo_tree::statement::Tree;
use syntax_fault::fault::{FaultKind, SyntaxFault};

// The line of the first `break` or `continue` that no loop has taken.
#[tactic(auto, using(crate::proofs::Lines::no_stray_yet, crate::proofs::Lines::one_stray_on, crate::proofs::Lines::no_stray_left))]
fn first_stray(strays: &[Stray]) -> Option<u64>
    ensures { result ≡ first_line (strays_of strays.now) }
{
    let mut first = None;
    for stray in strays {
        first = Some(stray.line);
    }
    first
}

/// The program of statements up to the end of a text, or what is wrong with it.
pub fn tested(block: Block) -> Result<Tree, SyntaxFault>
    ensures { IsAnswer result (by.tested (block_found block) (by.too_deep (block_found block).nodes)) }
{
    let Block {
        mut reversed,
        nodes,
        strays,
    } = block;
    match too_deep(&nodes) {
        Some(line) => return Err(SyntaxFault {
            kind: FaultKind::Nesting,
            line,
        }),
        None => {}
    }
    match first_stray(&strays) {
        Some(line) => return Err(SyntaxFault {
            kind: FaultKind::LoopName,
            line,
        }),
        None => {}
    }
    reversed.reverse();
    Ok(Tree::new(reversed))
}
