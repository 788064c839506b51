//! The loop.
ghost use Rattle.std.specs.Prelude.{◌≡◌, ◌⊎◌};

use crate::left::close_left;
use crate::pace::Pace;
use crate::playing::{End, Plan, Reached};
use crate::saving::Saver;
use crate::turn::{Edge, run_turn};
use connections::door::Door;
use connections::links::Links;
use speculate::gate::Gate;
use std::alloc::Global;
use std::io::Write;
use std::net::TcpListener;
use std::rt::Clock;
use std::sync::{Arc, Wait};
use std::thread;
use std::thread::{Parker, Threads};
use std::time::Duration;
use whole_files::writing::WholeFiles;
use world::worlds::World;

/// The status of a server that a task ended.
pub const ASKED: u8 = 0;

/// The status of a server whose steps' numbers are used up.
pub const FAULT: u8 = 2;

/// The status of a server that memory stopped.
pub const STOPPED: u8 = 3;

/// How long links may write their last lines, in milliseconds.
const LAST_LINES: u64 = 300;

/// Serves the sockets of a listener over a world, whose own links are closed first: each socket is a link, what its client sends is run in lists of steps,
/// with the tasks that are due, and their output goes back. The moments of steps are the clock's. Ends where a task asks for it, and where memory or the
/// numbers of steps run out, with a line that says so, and gives the status. The file `out` gets a checkpoint of the world after each list in which a task
/// asks for one, while lists go on, and of the world at the end; a line says of each whether it was written, and where the last one was not, the status of
/// an end that a task asked for is `FAULT`.
pub fn serve<
    G: Gate,
    R: AllocGlobal + WholeFiles + Threads + Wait + Clock + Copy + Send + Sync + 'static,
    C: Clock,
    E: Write,
>(
    rt: R,
    alloc: Global,
    gate: &G,
    world: World,
    listener: TcpListener,
    clock: &C,
    key: [u8; 32],
    workers: usize,
    out: Option<&str>,
    errors: &mut E,
) -> u8
    ensures { (result ≡ 0) ⊎ (result ≡ 2) ⊎ (result ≡ 3) }
{
    let Some(mut edge) = start(rt, alloc, listener, out) else {
        return say(errors, End::Memory(0), true);
    };
    let (world, end) = run_turns(
        rt,
        alloc,
        gate,
        clock,
        Plan { key, workers },
        world,
        &mut edge,
        errors,
    );
    let Edge {
        door,
        links,
        saver,
        ..
    } = edge;
    let is_saved = match saver {
        Some(saver) => saver.end(&rt, &world, errors),
        None => true,
    };
    door.shut(&rt);
    end_links(rt, links, end);
    say(errors, end, is_saved)
}

// The door, no links, and nothing to be written.
fn start<R: Threads + Wait + Clock + Copy + Send + 'static>(
    rt: R,
    alloc: Global,
    listener: TcpListener,
    out: Option<&str>,
) -> Option<Edge> {
    let bell = Arc::new(alloc, Parker::new()).ok()?;
    let links = Links::new(alloc).ok()?;
    let saver = match out {
        Some(file) => Some(Saver::new(alloc, file, &bell).ok()?),
        None => None,
    };
    let door = Door::start(rt, alloc, listener, &bell)?;
    Some(Edge {
        door,
        links,
        bell,
        saver,
    })
}

// Ends the links; where a task asked for the end, once they had time for their last lines.
fn end_links<R: Threads + Wait + Clock + Copy>(rt: R, mut links: Links, end: End) {
    if end == End::Asked {
        links.close(&rt);
        thread::sleep(&rt, Duration::from_millis(LAST_LINES));
    }
    links.end(&rt);
}

// Turns until the server does not go on. Gives the world that it has come to.
fn run_turns<
    G: Gate,
    R: AllocGlobal + WholeFiles + Threads + Wait + Clock + Copy + Send + Sync + 'static,
    C: Clock,
    E: Write,
>(
    rt: R,
    alloc: Global,
    gate: &G,
    clock: &C,
    plan: Plan,
    world: World,
    edge: &mut Edge,
    errors: &mut E,
) -> (World, End) {
    let mut pace = Pace::new();
    let mut reached = close_left(&rt, alloc, gate, clock, plan, world);
    'turn: for _ in rt.forever() {
        let Reached { world, asks, end } = reached;
        if let Some(end) = end {
            return (world, end);
        }
        if let Some(saver) = &mut edge.saver {
            saver.tend(rt, &world, asks, errors);
        }
        reached = run_turn(rt, alloc, gate, clock, plan, world, &mut pace, edge);
    }
    unreachable!()
}

// Says why the server has ended, and whose last world was written or was not to be.
fn say<E: Write>(errors: &mut E, end: End, is_saved: bool) -> u8
    ensures { (result ≡ 0) ⊎ (result ≡ 2) ⊎ (result ≡ 3) }
{
    match end {
        End::Asked if is_saved => ASKED,
        End::Asked => FAULT,
        End::Numbers => {
            let _ = writeln!(errors, "moo-server: numbers");
            FAULT
        }
        End::Memory(count) => {
            let _ = writeln!(errors, "stopped after {count}");
            STOPPED
        }
    }
}
