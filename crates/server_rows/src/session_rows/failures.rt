//! Sessions of two connections, in which each read and each write fails in turn.
use crate::session_rows::devices::{Failure, MOST_TAKEN};
use crate::session_rows::held::{Broken, Left, hold};
use moo_session::refused::Refused;
use speculate::gate::Free;
use std::alloc::AllocError;
use std::rt::Clock;
use std::sync::Wait;
use std::test::Fail;
use std::thread::Threads;
use world::worlds::Snapshot;
use world_fixture::fixture::fixture;

/// What the connections send: four lines, with a question and an option.
const STREAMS: [&[u8]; 2] = [
    b"lo\xff\xf6oks\r\n",
    b"\xff\xfd\x01count\r\nlooks\r\nsit\r\n",
];

/// What they are written.
const TEXTS: [&[u8]; 2] = [
    b"[Yes]\r\nI couldn't understand that.\r\n",
    b"\xff\xfc\x01I couldn't understand that.\r\nI couldn't understand that.\r\n",
];

/// The number of the step after theirs: two connections are opened, say four lines and are closed.
const NEXT: u64 = 9;

// What is written to them where a write to one of them fails after so many: to the earlier one all, to the later one nothing.
fn texts_until(connection: usize, writes: usize) -> [&'static [u8]; 2] {
    let [first, second] = TEXTS;
    let taken = writes.saturating_mul(MOST_TAKEN);
    if connection == 1 {
        [first.get(..taken).unwrap_or(first), b""]
    } else {
        [first, second.get(..taken).unwrap_or(second)]
    }
}

// The world after a session in which nothing fails.
fn world_after<R: Threads + Wait + Clock + Sync + AllocGlobal>(
    rt: &R,
) -> Result<Snapshot, AllocError> {
    let Left { world, .. } = hold(rt, &Free, &STREAMS, 2, Broken::Nothing)?;
    world.snapshot()
}

// What a session does otherwise than it is to.
fn others<R: Threads + Wait + Clock + Sync + AllocGlobal>(
    rt: &R,
    broken: Broken,
    refused: Option<Refused>,
    world: &Snapshot,
    texts: [&'static [u8]; 2],
) -> Result<String, AllocError> {
    let left = hold(rt, &Free, &STREAMS, 2, broken)?;
    let mut text = String::new(rt.alloc());
    if left.refused != refused {
        write!(&mut text, "{broken:?}: {:?}; ", left.refused)?;
    }
    if !left.world.snapshot()?.same_world(world) {
        write!(&mut text, "{broken:?}: another world; ")?;
    }
    for (sink, wanted) in left.sinks.iter().zip(texts) {
        if sink.bytes() != wanted {
            write!(&mut text, "{broken:?}: wrote {:?}; ", sink.bytes())?;
        }
    }
    Ok(text)
}

// Each read gives a byte, and the last one tells the end.
#[test]
fn each_read_fails(rt: HostRuntime) -> Result<(), Fail> {
    let before = fixture(rt.alloc())?.snapshot()?;
    for (connection, reads) in [(1, 10), (2, 23)] {
        for after in 0..reads {
            let broken = Broken::Read(connection, after);
            let refused = Some(Refused::Read(connection));
            let others = others(&rt, broken, refused, &before, [b"", b""])?;
            assert_eq!(rt; others.as_str(), "");
        }
    }
    Ok(())
}

#[test]
fn each_write_fails(rt: HostRuntime) -> Result<(), Fail> {
    let world = world_after(&rt)?;
    for (connection, writes) in [(1, 8), (2, 13)] {
        for after in 0..writes {
            for failure in [Failure::Error, Failure::Nothing] {
                let broken = Broken::Write(connection, after, failure);
                let refused = Some(Refused::Write(connection));
                let texts = texts_until(connection, after);
                assert_eq!(rt; others(&rt, broken, refused, &world, texts)?.as_str(), "");
            }
        }
    }
    Ok(())
}

// Devices that would fail at the next call: the calls of the rows above are all.
#[test]
fn none_fails(rt: HostRuntime) -> Result<(), Fail> {
    let world = world_after(&rt)?;
    assert_eq!(rt; world.into_world().next(), NEXT);
    let world = world_after(&rt)?;
    for broken in [
        Broken::Read(1, 10),
        Broken::Read(2, 23),
        Broken::Write(1, 8, Failure::Error),
        Broken::Write(2, 13, Failure::Nothing),
    ] {
        assert_eq!(rt; others(&rt, broken, None, &world, TEXTS)?.as_str(), "");
    }
    Ok(())
}
