//! Lanes that run side by side.
ghost use Rattle.std.specs.Prelude.{◌≡◌, ◌++◌, ◌∷◌, [], IsTrue, IfSome};
ghost use Rattle.spec_world.specs.Step.{AllInRange};
ghost use Rattle.speculate.specs.Lanes.{Each, HasRun};
ghost use denote.Param.Send.{IsSend, IsSync};

use crate::lane::{Lane, run_lane};
use crate::shared::Run;
use std::alloc::Global;
use std::marker::{Model, PhantomData};
use std::sync::{Mutex, Wait};
use std::thread;
use std::thread::{Builder, Threads};
use task_step::stack::STACK_SIZE;
use task_step::step::Step;
use world::worlds::Snapshot;

/// A lane that ran steps of the list `J` from its world on.
#[derive(Drop)]
struct Ran<J: Run> {
    lane: Lane,
    of: PhantomData<J>,
}

impl<J: Run> Model for Ran<J> {
    ghost use Rattle.speculate.specs.declared.lane.Lane.{Lane};
    ghost use Rattle.speculate.specs.contracts.lane.Lane as shown;
    ghost use Rattle.speculate.specs.Lanes.{HasRun};

    ghost Value = { Lane };

    ghost coded = { shown.the_row.coded };

    ghost view = { λ r. r.lane };

    ghost invariant = { λ r. HasRun J.base.plain J.steps r.lane };
}

impl<J: Run> Ran<J> {
    /// The lane.
    fn into_lane(self) -> Lane
        ensures same { result ≡ self }
        ensures run { HasRun J.base.plain J.steps result }
    {
        let Ran { lane, of: _ } = self;
        lane
    }
}

/// The lanes of the list `J`: the number of the first that nobody runs yet, and those that came to their ends.
#[derive(Drop)]
struct Bench<J: Run> {
    next: Mutex<usize>,
    lanes: Mutex<Vec<Ran<J>>>,
}

/// Runs each of so many colors of the steps in a lane, by several workers. None where one did not come to its end.
pub(crate) fn run_lanes<J: Run, R: Threads + Wait + Sync>(
    rt: &R,
    alloc: Global,
    home: &Snapshot,
    steps: &[Step],
    colors: &[u8],
    count: usize,
    workers: usize,
) -> Option<Vec<Lane>>
    requires base { home.now ≡ J.base.plain }
    requires list { steps.now ≡ J.steps }
    requires range { AllInRange steps.now }
    ensures { IfSome result (λ ls. Each (HasRun home.now steps.now) ls.items) }
{
    let bench: Bench<J> = Bench {
        next: Mutex::new(0),
        lanes: Mutex::new(Vec::new(alloc)),
    };
    side_by_side(rt, alloc, home, steps, colors, count, workers, &bench);
    let Bench { next: _, lanes } = bench;
    let ran = lanes.into_inner();
    if ran.len() < count {
        return None;
    }
    taken(alloc, ran)
}

fn side_by_side<J: Run, R: Threads + Wait + Sync>(
    rt: &R,
    alloc: Global,
    home: &Snapshot,
    steps: &[Step],
    colors: &[u8],
    count: usize,
    workers: usize,
    bench: &Bench<J>,
)
    requires base { home.now ≡ J.base.plain }
    requires list { steps.now ≡ J.steps }
    requires range { AllInRange steps.now }
{
    thread::scope(
        thread::scope_env(),
        rt,
        move |scope|
            requires { IsSend J.row × IsSync R.row × (home.now ≡ J.base.plain) × (steps.now ≡ J.steps) × AllInRange steps.now }
        {
            'worker: for _ in 1..workers {
                let job = move ||
                    requires { (home.now ≡ J.base.plain) × (steps.now ≡ J.steps) × AllInRange steps.now }
                { run_some(rt, alloc, home, steps, colors, count, bench) };
                let _ = Builder::new()
                    .stack_size(STACK_SIZE)
                    .spawn_scoped(scope, job);
            }
            run_some(rt, alloc, home, steps, colors, count, bench);
        },
    );
}

// Runs lanes that nobody runs yet, one after another.
fn run_some<J: Run, R: Wait>(
    rt: &R,
    alloc: Global,
    home: &Snapshot,
    steps: &[Step],
    colors: &[u8],
    count: usize,
    bench: &Bench<J>,
)
    requires base { home.now ≡ J.base.plain }
    requires list { steps.now ≡ J.steps }
    requires range { AllInRange steps.now }
{
    'lane: for _ in 0..count {
        let Some(lane) = claim(rt, count, bench) else {
            return;
        };
        run_in(rt, alloc, home, steps, colors, lane, bench);
    }
}

// The next lane, of so many.
fn claim<J: Run, R: Wait>(rt: &R, count: usize, bench: &Bench<J>) -> Option<usize> {
    let mut next = bench.next.lock(rt);
    let lane = *next;
    if lane >= count {
        return None;
    }
    *next = lane + 1;
    Some(lane)
}

// No lane is begun any more.
fn give_up<J: Run, R: Wait>(rt: &R, bench: &Bench<J>) {
    let mut next = bench.next.lock(rt);
    *next = usize::MAX;
}

// Runs one lane, and keeps it if it comes to its end.
fn run_in<J: Run, R: Wait>(
    rt: &R,
    alloc: Global,
    home: &Snapshot,
    steps: &[Step],
    colors: &[u8],
    lane: usize,
    bench: &Bench<J>,
)
    requires base { home.now ≡ J.base.plain }
    requires list { steps.now ≡ J.steps }
    requires range { AllInRange steps.now }
{
    let color = lane.min(255) as u8;
    match run_lane(alloc, home, steps, colors, color) {
        Some(lane) => hand_in(rt, lane, bench),
        None => give_up(rt, bench),
    }
}

fn hand_in<J: Run, R: Wait>(rt: &R, lane: Lane, bench: &Bench<J>)
    requires { HasRun J.base.plain J.steps lane }
{
    let ran: Ran<J> = Ran {
        lane,
        of: PhantomData,
    };
    let mut lanes = bench.lanes.lock(rt);
    if lanes.reserve(1).is_ok() {
        lanes.push_reserved(ran);
    }
}

// The lanes alone.
fn taken<J: Run>(alloc: Global, mut ran: Vec<Ran<J>>) -> Option<Vec<Lane>>
    ensures { IfSome result (λ ls. Each (HasRun J.base.plain J.steps) ls.items) }
{
    let mut lanes = Vec::new(alloc);
    'ran: while let Some(one) = ran.pop() {
        if !keep(&mut lanes, one.into_lane()) {
            return None;
        }
    }
    Some(lanes)
}

// One lane more, if there is memory for it.
fn keep(lanes: &mut Vec<Lane>, lane: Lane) -> bool
    ensures { IsTrue result → lanes.new.items ≡ lanes.old.items ++ lane ∷ [] }
{
    if lanes.reserve(1).is_err() {
        return false;
    }
    lanes.push_reserved(lane);
    true
}
