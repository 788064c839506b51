//! What a board takes and what it refuses.
use crate::list_rows::row::{Line, board_on, counts, guess_of, others, steps_of};
use speculate::board::{Board, Refused};
use speculate::held::Mark;
use std::alloc::{AllocError, Global};
use std::test::Fail;
use task_step::step::Step;
use world::shared::SharedSnapshot;
use world_fixture::fixture::fixture;

/// A call of a board, and what it answers.
#[derive(Clone, Copy, Debug)]
enum Call {
    /// To this position, a guess of the step at that one, made on the board's world; the refusal, if it is refused.
    Post(usize, usize, Option<Refused>),
    /// The loss of a position; the refusal, if it is refused.
    Lose(usize, Option<Refused>),
    /// An advance, which commits so many positions.
    Advance(usize),
}

use Call::{Advance, Lose, Post};

/// Calls of one board in their order.
const CALLS: [Call; 16] = [
    Post(2, 0, Some(Refused::Position)),
    Lose(2, Some(Refused::Position)),
    Post(1, 0, Some(Refused::Step)),
    Post(0, 1, Some(Refused::Step)),
    Advance(0),
    Post(0, 0, None),
    Post(0, 0, Some(Refused::Taken)),
    Post(0, 1, Some(Refused::Taken)),
    Lose(0, Some(Refused::Taken)),
    Advance(1),
    Post(0, 0, Some(Refused::Taken)),
    Lose(0, Some(Refused::Taken)),
    Post(1, 1, None),
    Lose(1, Some(Refused::Taken)),
    Advance(1),
    Advance(0),
];

// Whether a guess that is made on the board's world is taken or refused so. A refused guess is handed back.
fn posts(
    alloc: Global,
    board: &mut Board,
    position: usize,
    step: &Step,
    wanted: Option<Refused>,
) -> Result<bool, AllocError> {
    let snapshot = SharedSnapshot::new(alloc, board.snapshot()?)?;
    let Some(guess) = guess_of(alloc, &snapshot, step)? else {
        return Ok(false);
    };
    Ok(match board.post(position, guess) {
        Ok(()) => wanted.is_none(),
        Err((refused, guess)) => wanted == Some(refused) && guess.is_for(step),
    })
}

// Whether a call is answered so.
fn answers(
    alloc: Global,
    board: &mut Board,
    steps: &[Step],
    call: Call,
) -> Result<bool, AllocError> {
    match call {
        Post(position, of, wanted) => match steps.get(of) {
            Some(step) => posts(alloc, board, position, step, wanted),
            None => Ok(false),
        },
        Lose(position, wanted) => Ok(board.lose(position).err() == wanted),
        Advance(count) => Ok(board.advance(alloc)? == count),
    }
}

// The calls that are answered otherwise.
fn other_calls(
    alloc: Global,
    board: &mut Board,
    steps: &[Step],
    calls: &[Call],
) -> Result<String, AllocError> {
    let mut others = String::new(alloc);
    for call in calls {
        if !answers(alloc, board, steps, *call)? {
            write!(&mut others, "{call:?}; ")?;
        }
    }
    Ok(others)
}

// The calls that a board answers otherwise, and what it commits otherwise than the row.
fn others_after(
    alloc: Global,
    mut board: Board,
    row: &[Line],
    calls: &[Call],
) -> Result<String, AllocError> {
    let steps = steps_of(alloc, row)?;
    let mut text = other_calls(alloc, &mut board, steps.as_slice(), calls)?;
    text.push_str(others(alloc, &board.take(), row)?.as_str())?;
    Ok(text)
}

// The same of a board on the fixture.
fn others_on_fixture(alloc: Global, row: &[Line], calls: &[Call]) -> Result<String, AllocError> {
    match board_on(alloc, fixture(alloc)?, row)? {
        Some(board) => others_after(alloc, board, row, calls),
        None => String::from_str(alloc, "refused; "),
    }
}

// Two counts in one room, the second guessed on the world after the first.
#[test]
fn refusals(rt: HostRuntime) -> Result<(), Fail> {
    let row = [counts(1, 1, Mark::Kept), counts(2, 2, Mark::Kept)];
    assert_eq!(rt; others_on_fixture(rt.alloc(), &row, &CALLS)?.as_str(), "");
    Ok(())
}
