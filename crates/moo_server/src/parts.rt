//! A list of steps in parts: the lines of each are written before the next one is run.
ghost use Rattle.std.specs.Prelude.{◌≡◌, ◌+◌, ◌<◌, ◌≤◌, length, take};
ghost use Rattle.std.specs.Io.KnownBytes.{Appends};
ghost use Rattle.spec_world.specs.Step.{RunsOn, AllInRange};
ghost use Rattle.moo_server.specs.Printed.{printed};
ghost use Rattle.moo_server.specs.Runs.{IsPlayed, EndsIn};

use crate::printing::print_steps;
use speculate::gate::Gate;
use speculate::list::run_list;
use std::alloc::Global;
use std::io::Write;
use std::rt::Clock;
use std::sync::Wait;
use std::thread::Threads;
use task_step::partial::{Partial, Refusal};
use task_step::step::Step;
use world::worlds::World;

/// The most steps of a part that one worker runs. Its outcomes are in memory together.
const LONGEST_PART: usize = 4096;

/// The most steps of a part that several run.
const LONGEST_SHARED_PART: usize = 65536;

/// How far a list was run, with its lines written.
#[derive(Drop)]
pub(crate) enum Played {
    /// To its end, with the world there.
    Whole(World),
    /// Memory ran out after so many steps, with the world there.
    Part(World, usize),
    /// The lines could not be written.
    Unwritten,
}

/// Runs the steps and writes their lines, a part after the other.
pub(crate) fn play_steps<G: Gate, R: Threads + Wait + Clock + Sync, W: Write>(
    rt: &R,
    alloc: Global,
    gate: &G,
    mut world: World,
    steps: &[Step],
    workers: usize,
    out: &mut W,
) -> Played
    requires workers { (0 < workers) × (workers ≤ 64) }
    requires numbers { RunsOn world.plain steps.now × AllInRange steps.now }
    ensures { IsPlayed world.plain steps.now (W.contents out.old) (W.contents out.new) result }
{
    world.know();
    let longest = longest_part(workers);
    let mut first = 0;
    'part: while first < steps.len() {
        let end = end_of_part(first, steps.len(), longest);
        let part = &steps[first..end];
        match run_list(rt, alloc, gate, world, part, workers) {
            Ok(report) => {
                let Ok(()) = print_steps(out, part, &report.outcomes) else {
                    return Played::Unwritten;
                };
                world = report.world;
            }
            Err(partial) => return end_in_part(out, part, first, partial),
        }
        first = end;
    }
    Played::Whole(world)
}

// The most steps of a part by so many workers.
fn longest_part(workers: usize) -> usize
    ensures { 0 < result }
{
    if workers == 1 {
        LONGEST_PART
    } else {
        LONGEST_SHARED_PART
    }
}

// Where the part that begins at `first` ends, in a list of so many steps, where so many are the most of a part.
fn end_of_part(first: usize, count: usize, longest: usize) -> usize
    requires first { first < count }
    requires longest { 0 < longest }
    ensures { (first < result) × (result ≤ count) }
{
    if count - first <= longest {
        count
    } else {
        first + longest
    }
}

/// Writes the lines of the steps of a part that were run before memory ran out, behind those of so many steps before it.
pub(crate) fn end_in_part<W: Write>(
    out: &mut W,
    part: &[Step],
    before: usize,
    partial: Partial,
) -> Played
    requires memory { partial.refusal ≡ Refusal.Memory }
    requires count { (partial.count ≡ length partial.outcomes.items) × (partial.count ≤ length part.now) }
    requires fits { before + length part.now ≤ usize.MAX }
    ensures { EndsIn part.now before partial (W.contents out.old) (W.contents out.new) result }
{
    let run = &part[..partial.count];
    match print_steps(out, run, &partial.outcomes) {
        Ok(()) => Played::Part(partial.world, before + partial.count),
        Err(_) => Played::Unwritten,
    }
}
