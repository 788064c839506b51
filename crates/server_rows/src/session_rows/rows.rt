//! Sessions of one connection.
use crate::meeting::MeetingGate;
use crate::session_rows::held::{Broken, Left, hold};
use speculate::gate::{Free, Gate};
use std::alloc::AllocError;
use std::rt::Clock;
use std::sync::Wait;
use std::test::Fail;
use std::thread::Threads;
use view::question::{Answer, Question};
use world::worlds::World;

/// A line, in the midst of which the client asks whether the server is there.
const STREAM: &[u8] = b"lo\xff\xf6oks\r\n";

const WRITTEN: &[u8] = b"[Yes]\r\nI couldn't understand that.\r\n";

// Whether a world's next step has this number, and it has no link 1.
fn is_left(world: &World, next: u64) -> Result<bool, AllocError> {
    let link = world.ask(&Question::Link(1))?;
    Ok(world.next() == next && matches!(link, Answer::Link(None)))
}

// What a session with that stream does otherwise.
fn others<G: Gate, R: Threads + Wait + Clock + Sync + AllocGlobal>(
    rt: &R,
    gate: &G,
    workers: usize,
) -> Result<String, AllocError> {
    let Left {
        refused,
        world,
        sinks,
    } = hold(rt, gate, &[STREAM], workers, Broken::Nothing)?;
    let mut text = String::new(rt.alloc());
    if let Some(refused) = refused {
        write!(&mut text, "refused: {refused:?}; ")?;
    }
    if !is_left(&world, 4)? {
        text.push_str("another world; ")?;
    }
    for sink in &sinks {
        if sink.bytes() != WRITTEN {
            write!(&mut text, "wrote {:?}; ", sink.bytes())?;
        }
    }
    Ok(text)
}

#[test]
fn one_connection(rt: HostRuntime) -> Result<(), Fail> {
    for workers in [1, 2, 64] {
        assert_eq!(rt; others(&rt, &Free, workers)?.as_str(), "");
    }
    Ok(())
}

// The guesses of its first two steps are made while each other goes on.
#[test]
fn two_workers_meet(rt: HostRuntime) -> Result<(), Fail> {
    let gate = MeetingGate::new(false);
    assert_eq!(rt; others(&rt, &gate, 2)?.as_str(), "");
    assert!(rt; gate.was_held());
    Ok(())
}
