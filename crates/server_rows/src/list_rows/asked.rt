//! One worker, and a gate that does more than to guess.
use crate::list_rows::row::{counts, others_by};
use speculate::gate::Gate;
use speculate::guesses::Guess;
use speculate::guessing::guess;
use speculate::held::Mark;
use std::alloc::{AllocError, Global};
use std::rt::Clock;
use std::sync::Wait;
use std::sync::atomic::{AtomicU64, Ordering};
use std::test::Fail;
use std::thread::Threads;
use task_step::step::Step;
use world::shared::SharedSnapshot;
use world_fixture::fixture::fixture;

// Counts the guesses that it is asked for, and answers want of memory to position 1.
#[derive(Drop)]
struct CountingGate {
    calls: AtomicU64,
}

impl Gate for CountingGate {
    fn guess(
        &self,
        alloc: Global,
        position: usize,
        snapshot: &SharedSnapshot,
        step: &Step,
    ) -> Result<Guess, AllocError> {
        self.calls.fetch_add(1, Ordering::SeqCst);
        if position == 1 {
            return Err(AllocError);
        }
        guess(alloc, snapshot, step)
    }
}

// What three counts by one worker give otherwise, and how often the gate was asked, where not for each.
fn others<R: Threads + Wait + Clock + Sync + AllocGlobal>(rt: &R) -> Result<String, AllocError> {
    let alloc = rt.alloc();
    let row = [
        counts(1, 1, Mark::Kept),
        counts(1, 2, Mark::Lost),
        counts(1, 3, Mark::Kept),
    ];
    let gate = CountingGate {
        calls: AtomicU64::new(0),
    };
    let mut text = others_by(rt, &gate, fixture(alloc)?, &row, 1)?;
    let calls = gate.calls.load(Ordering::SeqCst);
    if calls != 3 {
        write!(&mut text, "{calls} calls; ")?;
    }
    Ok(text)
}

#[test]
fn one_worker_asks_its_gate(rt: HostRuntime) -> Result<(), Fail> {
    assert_eq!(rt; others(&rt)?.as_str(), "");
    Ok(())
}
