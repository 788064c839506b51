//! From a text to its tree.

ghost use Rattle.std.specs.Prelude.{◌≡◌, map, IfOk, IfErr};
ghost use Rattle.spec_program.specs.ReadPrograms as by;
ghost use Rattle.moo_token.specs.Views.{places};
ghost use Rattle.moo_token.specs.Meaning.{place_meant};
ghost use Rattle.syntax_fault.specs.Meaning.{IsFaultOrMemory};
ghost use Rattle.moo_syntax.specs.Answer.{IsAnswer};
ghost use Rattle.moo_syntax.specs.Given.{given};

use crate::ending::answer;
use crate::reading::read;
use moo_token::token::Placed;
use moo_token::tokens::{Tokens, tokens_of};
use moo_tree::statement::Tree;
use spelled_text::quickly_read;
use std::alloc::{AllocError, Global};
use syntax_fault::fault::{FaultKind, SyntaxFault};

// The line of the last of some tokens, or 1.
#[tactic(auto, using(crate::proofs::Lines::no_line_yet, crate::proofs::Lines::one_line_on, crate::proofs::Lines::no_line_left))]
fn line_of_last(tokens: &[Placed]) -> u64
    ensures { result ≡ by.last_line (map place_meant (places tokens.now)) }
{
    let mut line = 1;
    for placed in tokens {
        line = placed.line;
    }
    line
}

// The line of a text's last token or fault, or 1.
fn last_line(tokens: &Tokens) -> u64
    ensures { result ≡ by.last_line (given tokens.now) }
{
    match tokens.fault {
        Some(fault) => fault.line,
        None => line_of_last(&tokens.tokens),
    }
}

// What comes of a program's text, token by token.
#[tactic(auto, using(crate::proofs::Answered::answer_is))]
fn read_through(alloc: Global, text: &[u8]) -> Result<Result<Tree, SyntaxFault>, AllocError>
    ensures { IfOk result (λ r. IsAnswer r (by.parsed text.now)) }
{
    let tokens = tokens_of(alloc, text)?;
    let last = last_line(&tokens);
    let state = read(alloc, tokens)?;
    Ok(answer(state, last))
}

/// What comes of a program's text: its tree, or its first fault. An `Err` says that memory ran out.
pub fn answered(alloc: Global, text: &[u8]) -> Result<Result<Tree, SyntaxFault>, AllocError>
    ensures { IfOk result (λ r. IsAnswer r (by.parsed text.now)) }
{
    let known = quickly_read(alloc, text)?;
    match known {
        Some(tree) => Ok(Ok(tree)),
        None => read_through(alloc, text),
    }
}

/// The tree of a program's text, or the text's first fault.
///
/// A token with which no program goes on comes first, then a statement or an expression that nests too deep, then a loop's name.
#[tactic(auto, using(crate::proofs::Answered::tree_found, crate::proofs::Answered::fault_found))]
pub fn parse(alloc: Global, text: &[u8]) -> Result<Tree, SyntaxFault>
    ensures found { IfOk result (λ tree. by.parsed text.now ≡ by.program tree) }
    ensures fault { IfErr result (λ e. IsFaultOrMemory e (by.parsed text.now)) }
{
    match answered(alloc, text) {
        Ok(answer) => answer,
        Err(_) => Err(SyntaxFault {
            kind: FaultKind::Memory,
            line: 0,
        }),
    }
}
