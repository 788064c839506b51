//! Lists by two workers that have to meet.
use crate::list_rows::row::{counts, others_by};
use crate::meeting::MeetingGate;
use speculate::held::Mark;
use std::alloc::AllocError;
use std::rt::Clock;
use std::sync::Wait;
use std::test::Fail;
use std::thread::Threads;
use world_fixture::fixture::fixture;

/// How often each list is played.
const TIMES: usize = 50;

// What two counts give otherwise where the second is committed so, and whether the workers do not meet.
fn others<R: Threads + Wait + Clock + Sync + AllocGlobal>(
    rt: &R,
    refuses: bool,
    second: Mark,
) -> Result<String, AllocError> {
    let alloc = rt.alloc();
    let row = [counts(1, 1, Mark::Kept), counts(2, 2, second)];
    let mut text = String::new(alloc);
    for _ in 0..TIMES {
        let gate = MeetingGate::new(refuses);
        text.push_str(others_by(rt, &gate, fixture(alloc)?, &row, 2)?.as_str())?;
        if !gate.was_held() || gate.calls() != 2 {
            text.push_str("no meeting; ")?;
        }
    }
    Ok(text)
}

// The second guess has read the world before the first step.
#[test]
fn two_workers_meet(rt: HostRuntime) -> Result<(), Fail> {
    assert_eq!(rt; others(&rt, false, Mark::Rerun)?.as_str(), "");
    Ok(())
}

#[test]
fn the_second_guess_is_lost(rt: HostRuntime) -> Result<(), Fail> {
    assert_eq!(rt; others(&rt, true, Mark::Lost)?.as_str(), "");
    Ok(())
}
