//! The end of a list.
ghost use Rattle.std.specs.Prelude.{◌≡◌, ◌≤◌, ◌+◌, length, take, IfOk, IfErr, OnOk};
ghost use Rattle.spec_moo.specs.Steps.{play};
ghost use Rattle.speculate.specs.BoardState.{IsHonest, runs};

use crate::board::Board;
use crate::report::Report;
use std::alloc::{AllocError, Global};
use task_step::partial::{Partial, Refusal};

/// Commits what the board has left, and takes it apart.
pub(crate) fn conclude(alloc: Global, mut board: Board) -> Result<Report, Partial>
    ensures ok { IfOk result (λ r. play board.base.plain board.steps ≡ (r.world.plain, r.outcomes.items)) }
    ensures count { IfOk result (λ r. (length r.outcomes.items ≡ length board.steps) × (length r.marks.items ≡ length board.steps)) }
    ensures part { IfErr result (λ p. play board.base.plain (take p.count board.steps) ≡ (p.world.plain, p.outcomes.items)) }
    ensures err { IfErr result (λ p. (p.count ≡ length p.outcomes.items) × (p.count ≤ length board.steps) × (p.refusal ≡ Refusal.Memory)) }
    ensures views { IfOk result (λ r. board.base.opened + runs r.marks.items ≤ r.world.opened) }
{
    let ended = finish(alloc, &mut board).is_ok();
    let Report {
        world,
        outcomes,
        marks,
    } = board.take();
    if ended {
        return Ok(Report {
            world,
            outcomes,
            marks,
        });
    }
    let count = outcomes.len();
    Err(Partial {
        refusal: Refusal::Memory,
        world,
        outcomes,
        count,
    })
}

// Loses what holds nothing, and commits to the end.
fn finish(alloc: Global, board: &mut Board) -> Result<(), AllocError>
    ensures same { (board.new.base ≡ board.old.base) × (board.new.steps ≡ board.old.steps) }
    ensures honest { IsHonest board.new }
    ensures ended { OnOk result (length board.new.outcomes ≡ length board.new.steps) }
{
    board.lose_rest();
    board.advance(alloc)?;
    Ok(())
}
