//! Rows: lines `count` of some connections, and what each gives.
use moo_value::text::Text;
use moo_value::value::{Shown, Value};
use speculate::board::Board;
use speculate::gate::Gate;
use speculate::guesses::Guess;
use speculate::guessing::guess;
use speculate::held::Mark;
use speculate::list::run_list;
use speculate::report::Report;
use std::alloc::{AllocError, Global};
use std::rt::Clock;
use std::sync::Wait;
use std::thread::Threads;
use task_step::outcome::{Ending, Outcome};
use task_step::step::{Event, Step, in_range};
use world::shared::SharedSnapshot;
use world::worlds::World;

/// A line `count` of a connection, and what it gives.
#[derive(Clone, Copy)]
pub(super) struct Line {
    connection: u32,
    // The integer that the verb returns, or none where nothing runs.
    value: Option<i32>,
    // How many ticks it uses.
    ticks: u32,
    // How it is committed, or none where that depends on which worker was first: it is kept or run again.
    mark: Option<Mark>,
}

/// A connection whose player counts to a value.
pub(super) fn counts(connection: u32, value: i32, mark: Mark) -> Line {
    Line {
        connection,
        value: Some(value),
        ticks: 5,
        mark: Some(mark),
    }
}

/// A connection whose player counts to a value, after one whose guess another worker may have made at the same time.
pub(super) fn counts_in_a_race(connection: u32, value: i32) -> Line {
    Line {
        connection,
        value: Some(value),
        ticks: 5,
        mark: None,
    }
}

/// A connection that is not there.
pub(super) fn idles(connection: u32, mark: Mark) -> Line {
    Line {
        connection,
        value: None,
        ticks: 0,
        mark: Some(mark),
    }
}

/// The steps of a row, numbered from 1 on.
pub(super) fn steps_of(alloc: Global, row: &[Line]) -> Result<Vec<Step>, AllocError> {
    let mut steps = Vec::with_capacity(alloc, row.len())?;
    let mut number = 1u32;
    for line in row {
        steps.push(Step {
            number,
            moment: 0,
            key: [0u8; 32],
            event: Event::Line(line.connection, Text::from_str(alloc, "count")?),
        })?;
        number = number.saturating_add(1);
    }
    Ok(steps)
}

/// A guess of a step, if that is in range.
pub(super) fn guess_of(
    alloc: Global,
    snapshot: &SharedSnapshot,
    step: &Step,
) -> Result<Option<Guess>, AllocError> {
    if !in_range(step) {
        return Ok(None);
    }
    Ok(Some(guess(alloc, snapshot, step)?))
}

/// A board of a row's steps on a world, if they are not refused.
pub(super) fn board_on(
    alloc: Global,
    world: World,
    row: &[Line],
) -> Result<Option<Board>, AllocError> {
    Ok(Board::new(alloc, world, steps_of(alloc, row)?).ok())
}

/// What a row gives otherwise by a gate and so many workers.
pub(super) fn others_by<G: Gate, R: Threads + Wait + Clock + Sync + AllocGlobal>(
    rt: &R,
    gate: &G,
    world: World,
    row: &[Line],
    workers: usize,
) -> Result<String, AllocError> {
    let alloc = rt.alloc();
    let steps = steps_of(alloc, row)?;
    match run_list(rt, alloc, gate, world, steps.as_slice(), workers) {
        Ok(report) => others(alloc, &report, row),
        Err(_) => String::from_str(alloc, "refused; "),
    }
}

/// What a whole list gave otherwise than its row.
pub(super) fn others(alloc: Global, report: &Report, row: &[Line]) -> Result<String, AllocError> {
    let mut others = String::new(alloc);
    let next = report.world.next();
    if next != row.len() as u64 + 1 {
        write!(&mut others, "next {next}; ")?;
    }
    if report.outcomes.len() != row.len() || report.marks.len() != row.len() {
        others.push_str("another number of outcomes or marks; ")?;
    }
    for ((line, outcome), mark) in row.iter().zip(&report.outcomes).zip(&report.marks) {
        if !is_wanted(line, outcome, *mark) {
            let ticks = outcome.ticks;
            write!(&mut others, "{:?}: {ticks} ticks, {mark:?}; ", line.value)?;
        }
    }
    Ok(others)
}

fn is_wanted(line: &Line, outcome: &Outcome, mark: Mark) -> bool {
    has_value(&outcome.result, line.value)
        && outcome.ticks == line.ticks
        && is_mark(line.mark, mark)
}

fn is_mark(wanted: Option<Mark>, mark: Mark) -> bool {
    match wanted {
        Some(wanted) => mark == wanted,
        None => mark != Mark::Lost,
    }
}

// Whether a step gave this integer, or nothing where there is none.
fn has_value(ending: &Ending, value: Option<i32>) -> bool {
    match ending {
        Ending::Value(given) => value.is_some() && integer(given) == value,
        Ending::Nothing => value.is_none(),
        _ => false,
    }
}

// The integer that a value is.
fn integer(value: &Value) -> Option<i32> {
    match value.shown() {
        Shown::Integer(number) => Some(number),
        _ => None,
    }
}
