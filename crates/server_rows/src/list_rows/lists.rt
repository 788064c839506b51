//! Lists on a board, and by several workers.
use crate::list_rows::row::{
    Line, board_on, counts, counts_in_a_race, guess_of, idles, others, others_by, steps_of,
};
use speculate::board::Board;
use speculate::gate::Free;
use speculate::held::Mark;
use std::alloc::{AllocError, Global};
use std::rt::Clock;
use std::sync::Wait;
use std::test::Fail;
use std::thread::Threads;
use task_step::step::Step;
use world::shared::SharedSnapshot;
use world::worlds::World;
use world_fixture::fixture::fixture;
use world_fixture::rooms::fixture_with_rooms;

// 64 players count, each in a room of its own.
fn apart(alloc: Global) -> Result<Vec<Line>, AllocError> {
    let mut row = Vec::with_capacity(alloc, 64)?;
    for connection in 3..67 {
        row.push(counts(connection, 1, Mark::Kept))?;
    }
    Ok(row)
}

// Two players count in turn in one room. One worker keeps each guess; of several, one may guess before the step ahead is committed.
fn in_turn(alloc: Global, is_alone: bool) -> Result<Vec<Line>, AllocError> {
    let mut row = Vec::with_capacity(alloc, 200)?;
    for value in 1..201 {
        let connection = if value % 2 == 1 { 1 } else { 2 };
        row.push(if is_alone || value == 1 {
            counts(connection, value, Mark::Kept)
        } else {
            counts_in_a_race(connection, value)
        })?;
    }
    Ok(row)
}

// One player counts 64 times.
fn by_one(alloc: Global) -> Result<Vec<Line>, AllocError> {
    let mut row = Vec::with_capacity(alloc, 64)?;
    for value in 1..65 {
        row.push(counts(1, value, Mark::Kept))?;
    }
    Ok(row)
}

// Posts a guess of each step, made on one snapshot, and says whether all were taken.
fn posts_all(
    alloc: Global,
    board: &mut Board,
    snapshot: &SharedSnapshot,
    steps: &[Step],
) -> Result<bool, AllocError> {
    for (position, step) in steps.iter().enumerate() {
        let Some(guess) = guess_of(alloc, snapshot, step)? else {
            return Ok(false);
        };
        if board.post(position, guess).is_err() {
            return Ok(false);
        }
    }
    Ok(true)
}

// A board of a row's steps that holds a guess of each, made on the opening world.
fn board_with_guesses(
    alloc: Global,
    world: World,
    row: &[Line],
) -> Result<Option<Board>, AllocError> {
    let steps = steps_of(alloc, row)?;
    let Some(mut board) = board_on(alloc, world, row)? else {
        return Ok(None);
    };
    let opening = SharedSnapshot::new(alloc, board.snapshot()?)?;
    let has_all = posts_all(alloc, &mut board, &opening, steps.as_slice())?;
    Ok(if has_all { Some(board) } else { None })
}

// What a row gives otherwise on a board, with each guess made on the opening world.
fn others_on_board(alloc: Global, world: World, row: &[Line]) -> Result<String, AllocError> {
    let Some(mut board) = board_with_guesses(alloc, world, row)? else {
        return String::from_str(alloc, "refused; ");
    };
    if board.advance(alloc)? != row.len() {
        return String::from_str(alloc, "not all committed; ");
    }
    others(alloc, &board.take(), row)
}

// What a row gives otherwise by each of these numbers of workers, on the fixture or on the one with more rooms.
fn others_by_workers<R: Threads + Wait + Clock + Sync + AllocGlobal>(
    rt: &R,
    has_rooms: bool,
    row: &[Line],
    numbers: &[usize],
) -> Result<String, AllocError> {
    let alloc = rt.alloc();
    let mut text = String::new(alloc);
    for workers in numbers {
        let world = if has_rooms {
            fixture_with_rooms(alloc)?
        } else {
            fixture(alloc)?
        };
        text.push_str(others_by(rt, &Free, world, row, *workers)?.as_str())?;
    }
    Ok(text)
}

// Two players, and between them in the second row a connection that is not there.
#[test]
fn counts_in_one_room(rt: HostRuntime) -> Result<(), Fail> {
    let alloc = rt.alloc();
    let two = [counts(1, 1, Mark::Kept), counts(2, 2, Mark::Rerun)];
    let three = [
        counts(1, 1, Mark::Kept),
        idles(3, Mark::Kept),
        counts(2, 2, Mark::Rerun),
    ];
    assert_eq!(rt; others_on_board(alloc, fixture(alloc)?, &two)?.as_str(), "");
    assert_eq!(rt;
        others_on_board(alloc, fixture(alloc)?, &three)?.as_str(),
        ""
    );
    Ok(())
}

// The same lists by workers: one guesses each step on the world before it.
#[test]
fn counts_in_one_room_by_workers(rt: HostRuntime) -> Result<(), Fail> {
    let alone = [
        counts(1, 1, Mark::Kept),
        idles(3, Mark::Kept),
        counts(2, 2, Mark::Kept),
    ];
    let together = [
        counts(1, 1, Mark::Kept),
        idles(3, Mark::Kept),
        counts_in_a_race(2, 2),
    ];
    assert_eq!(rt; others_by_workers(&rt, false, &alone, &[1])?.as_str(), "");
    assert_eq!(rt;
        others_by_workers(&rt, false, &together, &[2, 3, 64])?.as_str(),
        ""
    );
    Ok(())
}

#[test]
fn counts_in_rooms_of_their_own(rt: HostRuntime) -> Result<(), Fail> {
    let alloc = rt.alloc();
    let row = apart(alloc)?;
    assert_eq!(rt;
        others_on_board(alloc, fixture_with_rooms(alloc)?, row.as_slice())?.as_str(),
        ""
    );
    assert_eq!(rt;
        others_by_workers(&rt, true, row.as_slice(), &[1, 2, 64])?.as_str(),
        ""
    );
    Ok(())
}

#[test]
fn counts_in_turn(rt: HostRuntime) -> Result<(), Fail> {
    let alone = in_turn(rt.alloc(), true)?;
    let together = in_turn(rt.alloc(), false)?;
    assert_eq!(rt;
        others_by_workers(&rt, false, alone.as_slice(), &[1])?.as_str(),
        ""
    );
    assert_eq!(rt;
        others_by_workers(&rt, false, together.as_slice(), &[2, 3, 63, 64])?.as_str(),
        ""
    );
    Ok(())
}

#[test]
fn counts_by_one_worker(rt: HostRuntime) -> Result<(), Fail> {
    let row = by_one(rt.alloc())?;
    assert_eq!(rt;
        others_by_workers(&rt, false, row.as_slice(), &[1])?.as_str(),
        ""
    );
    Ok(())
}
