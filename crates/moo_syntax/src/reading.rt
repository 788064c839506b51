//! The reader's steps, from the start of a text to its end.

ghost use Rattle.std.specs.Prelude.{◌≡◌, IfOk};
ghost use Rattle.spec_program.specs.ReadPrograms.{parsed_tokens};
ghost use Rattle.spec_reader.specs.Whole.{start, outcome};
ghost use Rattle.reader_frames.specs.StateView.{state_of};
ghost use Rattle.moo_syntax.specs.Given.{given};
ghost use Rattle.moo_syntax.specs.Advances.{Advances};

use crate::ending::is_over;
use crate::terms::onward;
use crate::trim::{is_long, trimmed};
use moo_token::tokens::Tokens;
use reader_frames::begun::Begun;
use reader_frames::left::{Left, Rest};
use reader_frames::state::{Next, State};
use std::alloc::{AllocError, Global};
use std::collections::VecDeque;

// Where the reader begins: statements, with nothing begun.
fn start(alloc: Global, tokens: Tokens) -> Result<State, AllocError>
    ensures { IfOk result (λ s. state_of s ≡ start (given tokens)) }
{
    let Tokens { tokens, fault } = tokens;
    let rest = Rest {
        tokens: VecDeque::from(tokens),
        fault,
    };
    let rest = Box::new(alloc, rest)?;
    let begun = Box::new(alloc, Begun::none(alloc))?;
    Ok(State {
        next: Next::Block,
        begun,
        left: Left { rest },
    })
}

// One step on or several, with another state in the place of one that has many nodes.
#[tactic(auto, using(crate::proofs::Going::another_advances))]
#[inline(always)]
fn stepped(alloc: Global, state: State) -> Result<State, AllocError>
    ensures { IfOk result (λ s. Advances (state_of state) (state_of s)) }
{
    let next = onward(alloc, state)?;
    if !is_long(&next.next) {
        return Ok(next);
    }
    let few = trimmed(alloc, next)?;
    Ok(few)
}

/// Where the reader of these tokens comes to its end.
#[tactic(auto, using(crate::proofs::Going::going_first, crate::proofs::Going::going_instead, crate::proofs::Going::going_less, crate::proofs::Going::going_over))]
pub fn read(alloc: Global, tokens: Tokens) -> Result<State, AllocError>
    ensures { IfOk result (λ s. outcome (given tokens) (state_of s) ≡ parsed_tokens (given tokens)) }
{
    let first = start(alloc, tokens)?;
    let mut state = first;
    'steps: while !is_over(&state) {
        state = stepped(alloc, state)?;
    }
    Ok(state)
}
