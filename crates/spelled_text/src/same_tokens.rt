//! Texts with the tokens of a tree's canonical spelling, on whatever lines these stand.
ghost use Rattle.std.specs.Prelude.{◌≡◌, [], IfOk, IfSome, IsTrue};
ghost use Rattle.spec_program.specs.ReadPrograms.{program, parsed};
ghost use Rattle.spec_program.specs.Trees.{is_tree};
ghost use Rattle.spec_spelling.specs.ProgramTokens.{program_tokens};
ghost use Rattle.tokens_ahead.specs.Bare.{bare};

use moo_tree::statement::Tree;
use quick_reader::guess::guess;
use quick_reader::room::Room;
use std::alloc::{AllocError, Global};
use tokens_ahead::front::behind_blanks;
use tree_grammar::is_of_grammar;
use tree_tokens::statement::behind_statements;

/// Whether the tokens of a text were found to be those of a tree's canonical spelling. `false` says nothing.
#[tactic(auto, using(crate::proofs::TokensLeft::all_taken))]
pub fn has_its_tokens(tree: &Tree, text: &[u8]) -> bool
    ensures { IsTrue result → bare text.now ≡ program_tokens tree.now }
{
    match behind_statements(text, tree.statements()) {
        Some(rest) => has_no_token(rest),
        None => false,
    }
}

// Whether nothing but blanks is left.
#[tactic(auto, using(crate::proofs::TokensLeft::none_left))]
fn has_no_token(text: &[u8]) -> bool
    ensures { IsTrue result → bare text.now ≡ [] }
{
    behind_blanks(text).is_empty()
}

/// The tree of a text, if it is quickly found. `None` says that it was not, and not that there is none: the tree is guessed, and given where it is one of
/// the grammar whose canonical spelling has just the tokens of this text.
#[tactic(auto, using(crate::proofs::TokensLeft::known_by_tokens))]
pub fn quickly_read(alloc: Global, text: &[u8]) -> Result<Option<Tree>, AllocError>
    ensures tree { IfOk result (λ found. IfSome found (λ tree. IsTrue (is_tree tree))) }
    ensures parsed { IfOk result (λ found. IfSome found (λ tree. parsed text.now ≡ program tree)) }
{
    let mut room = Room::new(alloc);
    let found = guess(&mut room, text)?;
    let Some(tree) = found else {
        return Ok(None);
    };
    if !has_its_tokens(&tree, text) {
        return Ok(None);
    }
    let is_tree = is_of_grammar(alloc, &tree)?;
    if is_tree { Ok(Some(tree)) } else { Ok(None) }
}
