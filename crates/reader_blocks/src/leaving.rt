//! What leaves a loop, or goes on with its next turn.

ghost use Rattle.std.specs.Prelude.{◌≡◌, false, [], ◌∷◌, IfOk, OnOk};
ghost use Rattle.spec_program.specs.Frames.{a_statement};
ghost use Rattle.spec_program.specs.ReadPrograms as by;
ghost use Rattle.spec_program.specs.Reading.{under as meant_under};
ghost use Rattle.spec_program.specs.Tree as tree;
ghost use Rattle.spec_reader.specs.Begins.{leaving_begins};
ghost use Rattle.spec_reader.specs.Next.{taken_word};
ghost use Rattle.moo_tree.specs.StatementView.{node_statement};
ghost use Rattle.moo_reader.specs.BlockViews.{statement_found, strays_of};
ghost use Rattle.reader_frames.specs.LeftView.{left_of};
ghost use Rattle.reader_frames.specs.FrameViews.{all_begun};
ghost use Rattle.reader_frames.specs.StateView.{state_of};
ghost use Rattle.reader_blocks.specs.Names.{name_taken};

use crate::strays::copied;
use moo_reader::block::{FoundStatement, Stray};
use moo_reader::node::{Nodes, under};
use moo_reader::text::lower_case;
use moo_tree::statement::{Statement, StatementNode};
use moo_value::text::Text;
use reader_frames::begun::Begun;
use reader_frames::ends::statement_ended;
use reader_frames::left::Left;
use reader_frames::state::State;
use std::alloc::{AllocError, Global};

/// Takes a word, if there is one: its text in lower case.
pub fn perhaps_name(alloc: Global, left: &mut Left) -> Result<Option<Text>, AllocError>
    ensures name { IfOk result (λ x. x ≡ name_taken (taken_word (left_of left.old)).word) }
    ensures left { OnOk result (left_of left.new ≡ (taken_word (left_of left.old)).left) }
{
    let Some(word) = left.take_word()? else {
        return Ok(None);
    };
    let name = lower_case(alloc, &word.text)?;
    Ok(Some(name))
}

fn stray(
    alloc: Global,
    line: u64,
    name: Option<Text>,
    node: StatementNode,
) -> Result<FoundStatement, AllocError>
    ensures { IfOk result (λ s. statement_found s ≡ by.stray line name (node_statement node)) }
{
    let (nodes, strays) = stray_alone(alloc, line, name)?;
    Ok(FoundStatement {
        tree: Statement { node },
        nodes,
        strays,
    })
}

// The nodes and the strays of a statement of this line that leaves a loop.
fn stray_alone(
    alloc: Global,
    line: u64,
    name: Option<Text>,
) -> Result<(Nodes, Vec<Stray>), AllocError>
    ensures nodes { IfOk result (λ p. p.0 ≡ meant_under line []) }
    ensures strays { IfOk result (λ p. strays_of p.1.items ≡ record { line = line; name = name; cut_off = false } ∷ []) }
{
    let nodes = under(line, Nodes::none(alloc))?;
    let mut strays = Vec::new(alloc);
    strays.push(Stray {
        line,
        name,
        cut_off: false,
    })?;
    Ok((nodes, strays))
}

/// `break`.
#[tactic(auto, using(crate::proofs::Words::leaving_by_name))]
pub fn break_begins(
    alloc: Global,
    line: u64,
    begun: Box<Begun>,
    mut left: Left,
) -> Result<State, AllocError>
    ensures { IfOk result (λ s. state_of s ≡ leaving_begins tree.leave_loop line (all_begun begun.value a_statement) (left_of left)) }
{
    let name = perhaps_name(alloc, &mut left)?;
    let copy = copied(&name)?;
    let statement = stray(alloc, line, name, StatementNode::Break(copy))?;
    statement_ended(alloc, statement, begun, left)
}

/// `continue`.
#[tactic(auto, using(crate::proofs::Words::leaving_by_name))]
pub fn continue_begins(
    alloc: Global,
    line: u64,
    begun: Box<Begun>,
    mut left: Left,
) -> Result<State, AllocError>
    ensures { IfOk result (λ s. state_of s ≡ leaving_begins tree.next_turn line (all_begun begun.value a_statement) (left_of left)) }
{
    let name = perhaps_name(alloc, &mut left)?;
    let copy = copied(&name)?;
    let statement = stray(alloc, line, name, StatementNode::Continue(copy))?;
    statement_ended(alloc, statement, begun, left)
}
