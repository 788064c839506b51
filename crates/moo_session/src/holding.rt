//! A session, from bytes to bytes.
ghost use Rattle.std.specs.Prelude.{◌≡◌, ◌<◌, ◌≤◌, ◌⊎◌, ◌↔◌, ◌≢◌, ℕ, List, map, length, false, IfOk, IfErr, IsOk};
ghost use Rattle.spec_world.specs.Step.{RunsOn, AllInRange};
ghost use Rattle.spec_world.specs.Outcome.{Outcome as Came};
ghost use Rattle.spec_moo.specs.Steps.{play};
ghost use Rattle.telnet_line.specs.Telnet.{Event as Heard};
ghost use Rattle.streams.specs.Reads.{EachSpells, Rises};
ghost use Rattle.streams.specs.Writes.{EachWritten};
ghost use Rattle.moo_session.specs.Sessions.{session_steps, texts_from};
ghost use Rattle.moo_session.specs.Texts.{IsCutAt};
ghost use Rattle.moo_session.specs.Refusals.{OnRead, OnWrite, is_write};

use crate::playing::{Unplayed, play_all};
use crate::refused::Refused;
use crate::writing::{texts_of, write_all};
use speculate::gate::Gate;
use std::alloc::Global;
use std::rt::Clock;
use std::sync::Wait;
use std::thread::Threads;
use streams::reading::{NotRead, read_streams};
use streams::sink::Sink;
use streams::source::Source;
use world::worlds::World;

/// The most connections of a session.
pub const MOST_CONNECTIONS: usize = 64;

/// The most workers of a session.
pub const MOST_WORKERS: usize = 64;

/// Holds a session: connections 1 to k are opened in order, say all the lines of their readers one connection after another, and are closed. Each writer gets
/// its connection's Telnet replies and then its output. Gives the world after that.
///
/// Refused are, in this order, a wrong count of readers and writers and a wrong number of workers, before anything is read; a reader that fails; steps
/// out of their range; and a writer that fails, after which the world is that after the steps. After any other refusal the world is as it was and
/// nothing was written.
pub fn session<G: Gate, S: Source, W: Sink, R: Threads + Wait + Clock + Sync>(
    rt: &R,
    alloc: Global,
    gate: &G,
    world: World,
    sources: &mut [S],
    sinks: &mut [W],
    key: [u8; 32],
    moment: u32,
    workers: usize,
) -> Result<World, (Refused, World)>
    ensures ok { IfOk result (λ w. (all : List (List Heard)) × (outcomes : List Came) × EachSpells (map S.left sources.old) all
        × (play world.plain (session_steps world.plain.next moment key all) ≡ (w.plain, outcomes))
        × EachWritten (map W.written sinks.old) (map W.written sinks.new) (texts_from 1 all outcomes)) }
    ensures count { IfErr result (λ e. e.0 ≡ Refused.Count ↔ ((length sources.old ≡ 0) ⊎ (64 < length sources.old) ⊎ (length sinks.old ≢ length sources.old))) }
    ensures workers { IfErr result (λ e. e.0 ≡ Refused.Workers ↔ ((0 < length sources.old) × (length sources.old ≤ 64) × (length sinks.old ≡ length sources.old)
        × ((workers ≡ 0) ⊎ (64 < workers)))) }
    ensures tested { IfErr result (λ e. (e.0 ≡ Refused.Count) ⊎ (e.0 ≡ Refused.Workers) → sources.new ≡ sources.old) }
    ensures read { IfErr result (λ e. OnRead e.0 (λ n. Rises n (map S.failures sources.old) (map S.failures sources.new))) }
    ensures numbers { IfErr result (λ e. e.0 ≡ Refused.Numbers → (all : List (List Heard)) × EachSpells (map S.left sources.old) all
        × (RunsOn world.plain (session_steps world.plain.next moment key all) → AllInRange (session_steps world.plain.next moment key all) → ⊥)) }
    ensures write { IfErr result (λ e. OnWrite e.0 (λ n. (all : List (List Heard)) × (outcomes : List Came) × EachSpells (map S.left sources.old) all
        × (play world.plain (session_steps world.plain.next moment key all) ≡ (e.1.plain, outcomes))
        × IsCutAt n W.written sinks.old sinks.new (texts_from 1 all outcomes)
        × Rises n (map W.failures sinks.old) (map W.failures sinks.new))) }
    ensures unchanged { IfErr result (λ e. is_write e.0 ≡ false → (e.1.plain ≡ world.plain) × (sinks.new ≡ sinks.old)) }
    ensures right { IsOk result → (0 < length sources.old) × (length sources.old ≤ 64) × (length sinks.old ≡ length sources.old) × (0 < workers) × (workers ≤ 64) }
{
    if sources.len() == 0 || sources.len() > MOST_CONNECTIONS || sinks.len() != sources.len() {
        return Err((Refused::Count, world));
    }
    if workers == 0 || workers > MOST_WORKERS {
        return Err((Refused::Workers, world));
    }
    let all = match read_streams(alloc, sources) {
        Ok(all) => all,
        Err(NotRead::Memory) => return Err((Refused::Memory, world)),
        Err(NotRead::Failed(number)) => return Err((Refused::Read(number), world)),
    };
    let Ok(before) = world.snapshot() else {
        return Err((Refused::Memory, world));
    };
    let (after, outcomes) = match play_all(
        rt,
        alloc,
        gate,
        world,
        all.as_slice(),
        key,
        moment,
        workers,
    ) {
        Ok(played) => played,
        Err((Unplayed::Memory, world)) => return Err((Refused::Memory, world)),
        Err((Unplayed::Numbers, world)) => return Err((Refused::Numbers, world)),
    };
    let Ok(texts) = texts_of(alloc, all.as_slice(), outcomes.as_slice()) else {
        return Err((Refused::Memory, before.into_world()));
    };
    match write_all(sinks, texts.as_slice()) {
        Ok(()) => Ok(after),
        Err(number) => Err((Refused::Write(number), after)),
    }
}
