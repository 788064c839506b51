//! Sessions of one and of two connections on the fixture.
use crate::session_rows::devices::{Failure, Fault, Given, Kept};
use moo_session::holding::session;
use moo_session::refused::Refused;
use speculate::gate::Gate;
use std::alloc::{AllocError, Global};
use std::rt::Clock;
use std::sync::Wait;
use std::thread::Threads;
use world::worlds::World;
use world_fixture::fixture::fixture;

/// What fails in a session. Connections are numbered from 1 on.
#[derive(Clone, Copy, Debug)]
pub enum Broken {
    Nothing,
    /// The read of this connection that comes after so many.
    Read(usize, usize),
    /// The write to this connection that comes after so many, in this way.
    Write(usize, usize, Failure),
}

impl Broken {
    // What fails of a connection's reader.
    fn of_reader(self, connection: usize) -> Fault {
        match self {
            Broken::Read(number, after) if number == connection => Fault::after(after),
            _ => Fault::never(),
        }
    }

    // What fails of a connection's writer.
    fn of_writer(self, connection: usize) -> Fault {
        match self {
            Broken::Write(number, after, _) if number == connection => Fault::after(after),
            _ => Fault::never(),
        }
    }

    // How writes fail.
    fn failure(self) -> Failure {
        match self {
            Broken::Write(_, _, failure) => failure,
            _ => Failure::Error,
        }
    }
}

/// What a session left.
#[derive(Drop)]
pub struct Left {
    /// Why it was refused, if it was.
    pub refused: Option<Refused>,
    pub world: World,
    /// The writers, that of connection 1 first.
    pub sinks: Vec<Kept>,
}

/// Holds a session on the fixture, in which the connections send these streams.
pub fn hold<G: Gate, R: Threads + Wait + Clock + Sync + AllocGlobal>(
    rt: &R,
    gate: &G,
    streams: &[&[u8]],
    workers: usize,
    broken: Broken,
) -> Result<Left, AllocError> {
    let alloc = rt.alloc();
    let mut sources = sources(alloc, streams, broken)?;
    let mut sinks = sinks(alloc, streams.len(), broken)?;
    let ended = session(
        rt,
        alloc,
        gate,
        fixture(alloc)?,
        sources.as_mut_slice(),
        sinks.as_mut_slice(),
        [0; 32],
        0,
        workers,
    );
    Ok(match ended {
        Ok(world) => Left {
            refused: None,
            world,
            sinks,
        },
        Err((refused, world)) => Left {
            refused: Some(refused),
            world,
            sinks,
        },
    })
}

fn sources(alloc: Global, streams: &[&[u8]], broken: Broken) -> Result<Vec<Given>, AllocError> {
    let mut sources = Vec::new(alloc);
    for at in 0..streams.len() {
        let fault = broken.of_reader(at + 1);
        sources.push(Given::new(alloc, streams[at], fault)?)?;
    }
    Ok(sources)
}

fn sinks(alloc: Global, count: usize, broken: Broken) -> Result<Vec<Kept>, AllocError> {
    let mut sinks = Vec::new(alloc);
    for at in 0..count {
        let fault = broken.of_writer(at + 1);
        sinks.push(Kept::new(alloc, fault, broken.failure()))?;
    }
    Ok(sinks)
}
