//! The tokens of a text.

ghost use Rattle.std.specs.Prelude.{◌≡◌, ℕ, List, true, IfOk};
ghost use Rattle.std.specs.List.{list_all};
ghost use Rattle.spec_value.specs.Datum.{Text};
ghost use Rattle.moo_token.specs.Tokens.{Place, Ending, IsText, faulty, is_sound, tokens_in};
ghost use Rattle.moo_token.specs.Views.{places, ending_of};
ghost use Rattle.moo_token.specs.Meaning.{all_meant};
ghost use Rattle.spec_program.specs.Tokens.{tokens_of as tokens_meant};

use crate::cutter::{CutError, Cutter};
use crate::fault::{FaultKind, TokenFault};
use crate::token::Placed;
use std::alloc::{AllocError, Global};

/// The tokens of a text up to its end, or up to its first fault.
#[derive(Debug, Drop)]
pub struct Tokens {
    pub tokens: Vec<Placed>,
    pub fault: Option<TokenFault>,
}

fn stopped(cutter: Cutter, kind: FaultKind) -> Tokens
    ensures tokens { result.tokens ≡ cutter.out }
    ensures fault { ending_of result.fault ≡ faulty kind cutter.line }
{
    let Cutter { out, line, .. } = cutter;
    Tokens {
        tokens: out,
        fault: Some(TokenFault { kind, line }),
    }
}

/// Cuts a text into its tokens, up to its end or its first fault.
pub fn tokens_of(alloc: Global, text: &[u8]) -> Result<Tokens, AllocError>
    // What is cut is what the text is, from line 1 on.
    ensures found { IfOk result (λ v. IsText 1 text.now (places v.tokens.items) (ending_of v.fault)) }
    // The text is nothing else.
    ensures only_tokens { (ps : List Place) (e : Ending) → IsText 1 text.now ps e → IfOk result (λ v. places v.tokens.items ≡ ps) }
    ensures only_ending { (ps : List Place) (e : Ending) → IsText 1 text.now ps e → IfOk result (λ v. ending_of v.fault ≡ e) }
    // These are the tokens of the definitions.
    ensures meaning { IfOk result (λ v. all_meant (places v.tokens.items) (ending_of v.fault) ≡ tokens_meant text.now) }
{
    let mut cutter = Cutter::new(alloc);
    for (place, byte) in text.iter().enumerate() {
        match cutter.step(alloc, *byte) {
            Ok(()) => {}
            Err(CutError::Memory) => return Err(AllocError),
            Err(CutError::Fault(kind)) => return Ok(stopped(cutter, kind)),
        }
    }
    match cutter.finish(alloc) {
        Ok(()) => {}
        Err(CutError::Memory) => return Err(AllocError),
        Err(CutError::Fault(kind)) => return Ok(stopped(cutter, kind)),
    }
    let Cutter { out, .. } = cutter;
    Ok(Tokens {
        tokens: out,
        fault: None,
    })
}

/// The tokens of a text are sound.
pub fn sound_tokens()
    ensures { (text : Text) (line : ℕ) (ps : List Place) (e : Ending) → IsText line text ps e → list_all is_sound (tokens_in ps) ≡ true }
{}

/// Each text has tokens up to an end, and no others.
pub fn one_cutting()
    ensures total { (text : Text) → (ps : List Place) × (e : Ending) × IsText 1 text ps e }
    ensures one_list { (text : Text) (ps qs : List Place) (e f : Ending) → IsText 1 text ps e → IsText 1 text qs f → ps ≡ qs }
    ensures one_ending { (text : Text) (ps qs : List Place) (e f : Ending) → IsText 1 text ps e → IsText 1 text qs f → e ≡ f }
{}
