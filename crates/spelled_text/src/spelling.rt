//! Texts that are the canonical lines of a tree, each with its line feed.
ghost use Rattle.std.specs.Prelude.{◌≡◌, ◌≢◌, ◌↔◌, ◌++◌, ◌∷◌, length, IfOk, IfSome, IsTrue, MatchOption};
ghost use Rattle.spec_value.specs.Datum as datum;
ghost use Rattle.spec_program.specs.ReadPrograms.{Parsed, program, parsed, joined_lines};
ghost use Rattle.spec_program.specs.Spelling.{canonical_lines};
ghost use Rattle.spec_program.specs.Trees.{is_tree};

use moo_printer::print::print;
use moo_tree::statement::Tree;
use moo_value::text::Text;
use quick_reader::guess::guess;
use quick_reader::room::Room;
use std::alloc::{AllocError, Global};
use tree_grammar::is_of_grammar;

/// A tree that was found in a text.
#[derive(Drop)]
pub struct FoundTree {
    pub tree: Tree,
    /// How many lines spell it.
    pub lines: usize,
}

/// The tree of a text that is its canonical lines, each with its line feed. `None` says that no tree was quickly found, not that there is none: the tree
/// is guessed, and given where it is one of the grammar that spells just this text.
#[tactic(auto, using(crate::proofs::Known::known))]
pub fn spelled(alloc: Global, room: &mut Room, text: &[u8]) -> Result<Option<FoundTree>, AllocError>
    ensures spelling { IfOk result (λ found. IfSome found (λ s. text.now ≡ joined_lines (canonical_lines s.tree))) }
    ensures lines { IfOk result (λ found. IfSome found (λ s. s.lines ≡ length (canonical_lines s.tree))) }
    ensures tree { IfOk result (λ found. IfSome found (λ s. IsTrue (is_tree s.tree))) }
    ensures parsed { IfOk result (λ found. IfSome found (λ s. parsed text.now ≡ program s.tree)) }
{
    let found = guess(room, text)?;
    let Some(tree) = found else {
        return Ok(None);
    };
    let is_tree = is_of_grammar(alloc, &tree)?;
    if !is_tree {
        return Ok(None);
    }
    let lines = print(alloc, &tree)?;
    if !is_made_of(text, &lines) {
        return Ok(None);
    }
    let lines = lines.len();
    Ok(Some(FoundTree { tree, lines }))
}

/// Whether a text is the canonical lines of a tree, each with its line feed.
pub fn is_spelling(alloc: Global, tree: &Tree, text: &[u8]) -> Result<bool, AllocError>
    ensures { IfOk result (λ yes. IsTrue yes ↔ text.now ≡ joined_lines (canonical_lines tree.now)) }
{
    let lines = print(alloc, tree)?;
    Ok(is_made_of(text, &lines))
}

// Whether a text is these lines, each with a line feed.
fn is_made_of(text: &[u8], lines: &[Text]) -> bool
    ensures { IsTrue result ↔ text.now ≡ joined_lines lines.now }
{
    let mut rest = text;
    for line in lines {
        match behind_line(rest, line.as_str().as_bytes()) {
            Some(behind) => rest = behind,
            None => return false,
        }
    }
    rest.is_empty()
}

// What stands behind a line and its line feed.
fn behind_line<'a>(text: &'a [u8], line: &[u8]) -> Option<&'a [u8]>
    ensures { MatchOption result ((r : datum.Text) → text.now ≢ line.now ++ 10 ∷ r) (λ b. text.now ≡ line.now ++ 10 ∷ b.now) }
{
    let Some(behind) = text.strip_prefix(line) else {
        return None;
    };
    behind_feed(behind)
}

// What stands behind a line feed.
fn behind_feed(text: &[u8]) -> Option<&[u8]>
    ensures { MatchOption result ((r : datum.Text) → text.now ≢ 10 ∷ r) (λ b. text.now ≡ 10 ∷ b.now) }
{
    match text {
        [b'\n', rest @ ..] => Some(rest),
        _ => None,
    }
}
