//! A board of two counts, and the text of the world after the first, which is made while the second is committed.
use crate::beside_rows::holding::Holding;
use crate::meeting::Meeting;
use checkpoint_beside::beside::Beside;
use moo_value::text::Text;
use speculate::board::Board;
use speculate::guessing::guess;
use std::alloc::{AllocError, Global};
use std::str;
use std::sync::Arc;
use std::test::Fail;
use std::thread::Threads;
use task_step::step::{Event, Step, in_range};
use world::shared::SharedSnapshot;
use world_fixture::fixture::fixture;

/// How often the board is played.
const TIMES: usize = 20;

/// What the text after one count has, and the text after two does not: the number of the next step, and the room's counter.
const FRONT: &str = "MOO-CHECKPOINT 1\nnext 2\n";

const SLOT: &str = "\nslot #2 r 1\n";

/// The line with which the room begins.
const ROOM: &str = "\nobject 3\n";

// A line `count` of a connection.
fn count(alloc: Global, number: u32, connection: u32) -> Result<Step, AllocError> {
    Ok(Step {
        number,
        moment: 0,
        key: [0; 32],
        event: Event::Line(connection, Text::from_str(alloc, "count")?),
    })
}

// Two counts in one room.
fn counts(alloc: Global) -> Result<Vec<Step>, AllocError> {
    let mut steps = Vec::new(alloc);
    steps.push(count(alloc, 1, 1)?)?;
    steps.push(count(alloc, 2, 2)?)?;
    Ok(steps)
}

// Guesses a step on the board's world, and commits it. Whether that could be done.
fn commits(
    alloc: Global,
    board: &mut Board,
    steps: &[Step],
    position: usize,
) -> Result<bool, AllocError> {
    let Some(step) = steps.get(position) else {
        return Ok(false);
    };
    if !in_range(step) {
        return Ok(false);
    }
    let snapshot = SharedSnapshot::new(alloc, board.snapshot()?)?;
    let guess = guess(alloc, &snapshot, step)?;
    Ok(board.post(position, guess).is_ok() && board.advance(alloc)? == 1)
}

// The text of the world after the first step, which an encoder begins before the second is committed and goes on with behind it: none where something
// did not come in this order.
fn text_between<R: Threads + AllocGlobal>(rt: &R) -> Result<Option<Vec<u8>>, AllocError> {
    let alloc = rt.alloc();
    let steps = counts(alloc)?;
    let Ok(mut board) = Board::new(alloc, fixture(alloc)?, counts(alloc)?) else {
        return Ok(None);
    };
    if !commits(alloc, &mut board, steps.as_slice(), 0)? {
        return Ok(None);
    }
    let meeting = Arc::new(alloc, Meeting::new())?;
    let encoder = Holding {
        meeting: meeting.clone()?,
    };
    let Ok(beside) = Beside::start(rt, alloc, encoder, board.snapshot()?) else {
        return Ok(None);
    };
    meeting.wait();
    let is_committed = commits(alloc, &mut board, steps.as_slice(), 1)?;
    meeting.answer();
    let text = beside.join(rt)?;
    if is_committed && meeting.was_held() && board.count() == 2 {
        Ok(Some(text))
    } else {
        Ok(None)
    }
}

// Whether a text is of the world after one count.
fn has_one_count(text: &[u8]) -> bool {
    let Ok(text) = str::from_utf8(text) else {
        return false;
    };
    match text.split_once(ROOM) {
        Some((front, room)) => front.starts_with(FRONT) && before_next(room).contains(SLOT),
        None => false,
    }
}

// The lines of an object, before the next one.
fn before_next(text: &str) -> &str {
    match text.split_once("\nobject ") {
        Some((object, _)) => object,
        None => text,
    }
}

#[test]
fn the_world_goes_on(rt: HostRuntime) -> Result<(), Fail> {
    for _ in 0..TIMES {
        let Some(text) = text_between(&rt)? else {
            return Err(Fail::new("out of order"));
        };
        assert!(rt; has_one_count(text.as_slice()));
    }
    Ok(())
}
