//! Lanes that are put together again.
ghost use Rattle.std.specs.Prelude.{List, ℕ, ◌≡◌, ◌≤◌, ◌<◌, [], map, length, reverse, IsTrue, IfOk, IfErr, IfSome, vec_len};
ghost use Rattle.spec_world.specs.World.{World as Plain};
ghost use Rattle.spec_world.specs.Step.{Step as Meant, AllInRange};
ghost use Rattle.spec_world.specs.Questions.{apply, apply_all, new_next};
ghost use Rattle.spec_moo.specs.Steps.{play};
ghost use Rattle.view.specs.Facets.{DoesLast};
ghost use Rattle.view.specs.Meanings.{change_of};
ghost use Rattle.view.specs.Sound.{IsSound};
ghost use Rattle.speculate.specs.Lanes.{Each, HasRun, LanesApart, ArePairApart, IsWoven, IsTaken, strand_of, after_strands};

use crate::lane::{Lane, Told};
use std::alloc::{AllocError, Global};
use task_step::outcome::Outcome;
use task_step::step::Step;
use view::change::Change;
use view::changes::Changes;

/// Whether no lane changes what another one asks for or changes.
pub(crate) fn are_apart(lanes: &[Lane]) -> bool
    ensures { IsTrue result → LanesApart lanes.now }
{
    'one: for one in 0..lanes.len() {
        if !is_apart(lanes, one) {
            return false;
        }
    }
    true
}

// Whether one of them does not.
fn is_apart(lanes: &[Lane], one: usize) -> bool
    requires { one < length lanes.now }
    ensures { IsTrue result → (j : ℕ) → ArePairApart lanes.now one j }
{
    'other: for other in 0..lanes.len() {
        if !are_pair_apart(lanes, one, other) {
            return false;
        }
    }
    true
}

// Whether one does not change what another one asks for or changes.
fn are_pair_apart(lanes: &[Lane], one: usize, other: usize) -> bool
    requires one { one < length lanes.now }
    requires other { other < length lanes.now }
    ensures { IsTrue result → ArePairApart lanes.now one other }
{
    if one == other {
        return true;
    }
    lanes[one].is_apart(&lanes[other])
}

/// The changes of all lanes. None after want of memory.
pub(crate) fn all_changes(alloc: Global, lanes: &[Lane]) -> Option<Changes>
    ensures { (base : Plain) (steps : List Meant) → Each (HasRun base steps) lanes.now → IfSome result (λ cs. (w : Plain) → apply_all cs w ≡ after_strands (map strand_of lanes.now) w) }
{
    let mut all = Changes::new(alloc);
    for lane in lanes {
        if !add_lane(&mut all, lane) {
            return None;
        }
    }
    Some(all)
}

// The changes of one more.
fn add_lane(all: &mut Changes, lane: &Lane) -> bool
    ensures { IsTrue result → (w : Plain) → apply_all all.new w ≡ apply (new_next lane.now.next) (apply_all lane.now.net (apply_all all.old w)) }
{
    if !add_changes(all, lane.net.as_slice()) {
        return false;
    }
    add_next(all, lane.next)
}

// The least number of the next step.
fn add_next(all: &mut Changes, next: u64) -> bool
    ensures { IsTrue result → DoesLast (new_next next) all.old all.new }
{
    all.push(Change::Next(next)).is_ok()
}

fn add_changes(all: &mut Changes, changes: &[Change]) -> bool
    ensures { IsTrue result → (w : Plain) → apply_all all.new w ≡ apply_all (map change_of changes.now) (apply_all all.old w) }
{
    for change in changes {
        if !add_change(all, change) {
            return false;
        }
    }
    true
}

fn add_change(all: &mut Changes, change: &Change) -> bool
    ensures { IsTrue result → DoesLast (change_of change.now) all.old all.new }
{
    let Ok(copy) = change.clone() else {
        return false;
    };
    all.push(copy).is_ok()
}

/// The outcomes of all steps, in their order. None where a step is missing or is told twice.
pub(crate) fn weave(
    alloc: Global,
    steps: &[Step],
    colors: &[u8],
    lanes: &mut Vec<Lane>,
) -> Option<Vec<Outcome>>
    requires { AllInRange steps.now }
    ensures { (base : Plain) (end : Plain) → IsWoven base steps.now 0 [] (map strand_of lanes.old.items) end
        → IfSome result (λ os. (play base steps.now ≡ (end, os.items)) × IsSound end × (length os.items ≡ length steps.now)) }
{
    let Ok(mut outcomes) = Vec::with_capacity(alloc, steps.len()) else {
        return None;
    };
    let Ok(order) = order(alloc, lanes.as_slice()) else {
        return None;
    };
    'at: for at in 0..steps.len() {
        let Some(told) = next_told(lanes, lane_of(colors, at, &order)) else {
            return None;
        };
        let Told {
            position,
            outcome,
            step: _,
            changes: _,
        } = told;
        if position != at {
            return None;
        }
        outcomes.push_reserved(outcome);
    }
    if !are_used_up(lanes.as_slice()) {
        return None;
    }
    Some(outcomes)
}

// Where the lane of each color stands.
fn order(alloc: Global, lanes: &[Lane]) -> Result<Vec<usize>, AllocError> {
    let mut order = vec![in alloc; lanes.len(); 256]?;
    for (place, lane) in lanes.iter().enumerate() {
        let color = lane.color as usize;
        if color < order.len() {
            order[color] = place;
        }
    }
    Ok(order)
}

// Where the lane of the step at a position stands, as far as is known.
#[inline(always)]
fn lane_of(colors: &[u8], at: usize, order: &Vec<usize>) -> usize {
    let Some(color) = colors.get(at) else {
        return usize::MAX;
    };
    match order.get(*color as usize) {
        Some(place) => *place,
        None => usize::MAX,
    }
}

// What is told next in a lane.
#[inline(always)]
fn next_told(lanes: &mut Vec<Lane>, lane: usize) -> Option<Told>
    ensures { IfSome result (λ t. IsTaken lanes.old.items lane t lanes.new.items) }
{
    if lane >= lanes.len() {
        return None;
    }
    lanes[lane].told.pop()
}

// Whether all is told.
fn are_used_up(lanes: &[Lane]) -> bool
    ensures { IsTrue result → Each (λ l. l.told.items ≡ []) lanes.now }
{
    'lane: for lane in 0..lanes.len() {
        if !lanes[lane].told.is_empty() {
            return false;
        }
    }
    true
}
