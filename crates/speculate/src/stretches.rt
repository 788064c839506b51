//! A list that is played in stretches, each by several workers or by the caller alone, whoever was the quicker before. Several workers try lanes first where these may
//! pay.
ghost use Rattle.std.specs.Prelude.{◌≡◌, ◌≤◌, ◌<◌, ◌+◌, ◌++◌, ◌-◌, ℕ, length, take, vec_len, vec_capacity, IfOk, IfErr};
ghost use Rattle.spec_world.specs.Step.{RunsOn, AllInRange};
ghost use Rattle.spec_moo.specs.Steps.{play};
ghost use Rattle.speculate.specs.BoardState.{runs};
ghost use Rattle.speculate.specs.Parts.{PlaysBehind};

use crate::gate::Gate;
use crate::here::{places, play_here};
use crate::lanes::play_in_lanes;
use crate::luck::Hope;
use crate::pace::{Pace, Way};
use crate::plan::is_spread;
use crate::report::Report;
use crate::several::play_by_several;
use std::alloc::Global;
use std::rt::Clock;
use std::sync::Wait;
use std::thread::Threads;
use std::time::Instant;
use task_step::outcome::Outcome;
use task_step::partial::{Partial, Refusal, refused};
use task_step::step::Step;
use world::worlds::World;

/// Plays the steps, a stretch after the other. After want of memory, the first part was run.
pub(crate) fn play_in_stretches<G: Gate, R: Threads + Wait + Clock + Sync>(
    rt: &R,
    alloc: Global,
    gate: &G,
    world: World,
    steps: &[Step],
    workers: usize,
) -> Result<Report, Partial>
    requires workers { (0 < workers) × (workers ≤ 64) }
    requires runs { RunsOn world.plain steps.now × AllInRange steps.now }
    ensures ok { IfOk result (λ r. play world.plain steps.now ≡ (r.world.plain, r.outcomes.items)) }
    ensures count { IfOk result (λ r. (length r.outcomes.items ≡ length steps.now) × (length r.marks.items ≡ length steps.now)) }
    ensures part { IfErr result (λ p. play world.plain (take p.count steps.now) ≡ (p.world.plain, p.outcomes.items)) }
    ensures err { IfErr result (λ p. (p.count ≡ length p.outcomes.items) × (p.count ≤ length steps.now) × (p.refusal ≡ Refusal.Memory)) }
    ensures views { IfOk result (λ r. world.opened + runs r.marks.items ≤ r.world.opened) }
{
    world.know();
    let (outcomes, marks) = match places(alloc, steps.len()) {
        Ok(places) => places,
        Err(_) => return Err(refused(alloc, Refusal::Memory, world)),
    };
    let mut report = Report {
        world,
        outcomes,
        marks,
    };
    let mut pace = Pace::new(workers);
    let mut hope = Hope::new();
    let mut at = 0;
    'stretch: while at < steps.len() {
        let left = steps.len() - at;
        let way = way_of(&pace, &mut hope, &steps[at..]);
        let count = pace.count(left, way);
        let start = Instant::now(rt).ok();
        match go_on(
            rt,
            alloc,
            gate,
            report,
            &steps[at..at + count],
            workers,
            way,
            &mut hope,
        ) {
            Ok(longer) => report = longer,
            Err(partial) => return Err(partial),
        }
        pace.note(count, way.is_by_several(), start, Instant::now(rt).ok());
        at += count;
    }
    Ok(report)
}

// Who plays the next ones of the steps that are left.
fn way_of(pace: &Pace, hope: &mut Hope, left: &[Step]) -> Way {
    if !pace.is_for_several(left.len()) {
        return Way::Alone;
    }
    if hope.is_there() && is_spread(left) {
        Way::Lanes
    } else {
        Way::Board
    }
}

// The next steps, behind those of a report that has room for them, by several workers or by the caller.
fn go_on<G: Gate, R: Threads + Wait + Sync>(
    rt: &R,
    alloc: Global,
    gate: &G,
    report: Report,
    next: &[Step],
    workers: usize,
    way: Way,
    hope: &mut Hope,
) -> Result<Report, Partial>
    requires workers { (0 < workers) × (workers ≤ 64) }
    requires runs { RunsOn report.world.plain next.now × AllInRange next.now }
    requires room { (vec_len report.outcomes + length next.now ≤ vec_capacity report.outcomes) × (vec_len report.marks + length next.now ≤ vec_capacity report.marks) }
    ensures ok { IfOk result (λ r. PlaysBehind report.world.plain next.now report.outcomes.items r.world.plain r.outcomes.items) }
    ensures count { IfOk result (λ r. (vec_len r.outcomes ≡ vec_len report.outcomes + length next.now) × (vec_len r.marks ≡ vec_len report.marks + length next.now)) }
    ensures room { IfOk result (λ r. (vec_capacity report.outcomes ≤ vec_capacity r.outcomes) × (vec_capacity report.marks ≤ vec_capacity r.marks)) }
    ensures part { IfErr result (λ p. (n : ℕ) × (n ≤ length next.now) × (p.count ≡ vec_len report.outcomes + n)
        × PlaysBehind report.world.plain (take n next.now) report.outcomes.items p.world.plain p.outcomes.items) }
    ensures err { IfErr result (λ p. (p.count ≡ length p.outcomes.items) × (p.refusal ≡ Refusal.Memory)) }
    ensures views { IfOk result (λ r. report.world.opened + runs r.marks.items ≤ r.world.opened + runs report.marks.items) }
{
    let Report {
        world,
        mut outcomes,
        mut marks,
    } = report;
    match play_stretch(rt, alloc, gate, world, next, workers, way, hope) {
        Ok(mut last) => {
            put_behind(&mut outcomes, &mut last.outcomes);
            put_behind(&mut marks, &mut last.marks);
            Ok(Report {
                world: last.world,
                outcomes,
                marks,
            })
        }
        Err(mut last) => {
            put_behind(&mut outcomes, &mut last.outcomes);
            let count = outcomes.len();
            Err(Partial {
                refusal: Refusal::Memory,
                world: last.world,
                outcomes,
                count,
            })
        }
    }
}

// A stretch by several workers, in lanes or on a board, or by the caller alone. Where lanes fail the board plays.
fn play_stretch<G: Gate, R: Threads + Wait + Sync>(
    rt: &R,
    alloc: Global,
    gate: &G,
    world: World,
    steps: &[Step],
    workers: usize,
    way: Way,
    hope: &mut Hope,
) -> Result<Report, Partial>
    requires workers { (0 < workers) × (workers ≤ 64) }
    requires runs { RunsOn world.plain steps.now × AllInRange steps.now }
    ensures ok { IfOk result (λ r. play world.plain steps.now ≡ (r.world.plain, r.outcomes.items)) }
    ensures count { IfOk result (λ r. (length r.outcomes.items ≡ length steps.now) × (length r.marks.items ≡ length steps.now)) }
    ensures part { IfErr result (λ p. play world.plain (take p.count steps.now) ≡ (p.world.plain, p.outcomes.items)) }
    ensures err { IfErr result (λ p. (p.count ≡ length p.outcomes.items) × (p.count ≤ length steps.now) × (p.refusal ≡ Refusal.Memory)) }
    ensures views { IfOk result (λ r. world.opened + runs r.marks.items ≤ r.world.opened) }
{
    match way {
        Way::Alone => play_here(alloc, gate, world, steps),
        Way::Board => play_by_several(rt, alloc, gate, world, steps, workers),
        Way::Lanes => match play_in_lanes(rt, alloc, world, steps, workers) {
            Ok(report) => {
                hope.win();
                Ok(report)
            }
            Err(world) => {
                hope.lose();
                play_by_several(rt, alloc, gate, world, steps, workers)
            }
        },
    }
}

// More behind what is there, for which there is room.
fn put_behind<T>(all: &mut Vec<T>, more: &mut Vec<T>)
    requires { vec_len all.old + vec_len more.old ≤ vec_capacity all.old }
    ensures items { all.new.items ≡ all.old.items ++ more.old.items }
    ensures len { vec_len all.new ≡ vec_len all.old + vec_len more.old }
    ensures capacity { vec_capacity all.old ≤ vec_capacity all.new }
{
    match all.append(more) {
        Ok(()) => {}
        Err(_) => unreachable!(),
    }
}
