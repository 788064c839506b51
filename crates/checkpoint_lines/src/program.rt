//! Programs from their canonical lines.
ghost use Rattle.std.specs.Prelude.{◌≡◌, List, Some, IsTrue, IfOk, IfSome};
ghost use Rattle.spec_value.specs.Datum.{Text};
ghost use Rattle.spec_program.specs.Tree.{Program as Source};
ghost use Rattle.spec_program.specs.ReadPrograms as reading;
ghost use Rattle.spec_program.specs.Trees.{is_tree};
ghost use Rattle.spec_program.specs.Spelling.{canonical_lines};
ghost use Rattle.spec_world.specs.Checkpoint.{with_line_ends};
ghost use Rattle.spec_checkpoint.specs.Lines.{are_lines};
ghost use Rattle.spec_faults.specs.Codes.{program_of};

use moo_compiler::program::Program;
use moo_syntax::parse::answered;
use moo_tree::statement::Tree;
use quick_reader::room::Room;
use spelled_text::is_spelling;
use std::alloc::{AllocError, Global};

// The longest text that is read in the room of others: that of a longer one may take many times as much memory.
const LONGEST: usize = 65_536;

/// The program whose canonical lines these are, each with its line feed.
pub fn program_in(
    alloc: Global,
    room: &mut Room,
    text: &[u8],
) -> Result<Option<Program>, AllocError>
    ensures reads { (p : Source) → IsTrue (is_tree p) → text.now ≡ with_line_ends (canonical_lines p) → IfOk result (λ o. o ≡ Some p) }
    ensures tells { (ts : List Text) → IsTrue (are_lines ts) → text.now ≡ with_line_ends ts → IfOk result (λ o. o ≡ program_of ts) }
{
    let known = quickly_read(alloc, room, text)?;
    match known {
        Some(program) => Ok(Some(program)),
        None => compiled(alloc, text),
    }
}

// The program that a text spells in its canonical lines, if it is quickly found.
fn quickly_read(alloc: Global, room: &mut Room, text: &[u8]) -> Result<Option<Program>, AllocError>
    ensures spelling { IfOk result (λ found. IfSome found (λ p. text.now ≡ reading.joined_lines (canonical_lines p))) }
    ensures tree { IfOk result (λ found. IfSome found (λ p. IsTrue (is_tree p))) }
    ensures parsed { IfOk result (λ found. IfSome found (λ p. reading.parsed text.now ≡ reading.program p)) }
{
    if text.len() <= LONGEST {
        return Program::read(alloc, room, text);
    }
    let mut own = Room::new(alloc);
    Program::read(alloc, &mut own, text)
}

// The same for any program, with its code.
fn compiled(alloc: Global, text: &[u8]) -> Result<Option<Program>, AllocError>
    ensures reads { (p : Source) → IsTrue (is_tree p) → text.now ≡ with_line_ends (canonical_lines p) → IfOk result (λ o. o ≡ Some p) }
    ensures tells { (ts : List Text) → IsTrue (are_lines ts) → text.now ≡ with_line_ends ts → IfOk result (λ o. o ≡ program_of ts) }
{
    let found = tree_read(alloc, text)?;
    match found {
        Some(tree) => {
            let program = Program::compile(alloc, tree)?;
            Ok(Some(program))
        }
        None => Ok(None),
    }
}

// The tree of a text, if these are its canonical lines.
fn tree_read(alloc: Global, text: &[u8]) -> Result<Option<Tree>, AllocError>
    ensures reads { (p : Source) → IsTrue (is_tree p) → text.now ≡ with_line_ends (canonical_lines p) → IfOk result (λ o. o ≡ Some p) }
    ensures tells { (ts : List Text) → IsTrue (are_lines ts) → text.now ≡ with_line_ends ts → IfOk result (λ o. o ≡ program_of ts) }
{
    let answer = answered(alloc, text)?;
    let Ok(tree) = answer else {
        return Ok(None);
    };
    let is_spelling = is_spelling(alloc, &tree, text)?;
    if is_spelling {
        Ok(Some(tree))
    } else {
        Ok(None)
    }
}
