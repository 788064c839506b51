//! A lane: some steps of a list, run one after another on a world of their own.
ghost use Rattle.std.specs.Prelude.{List, ◌≡◌, ◌<◌, ◌++◌, ◌∷◌, [], ℕ, ℤ, map, length, reverse, slice_get, Some, Contains, IsTrue, IfOk, IfSome};
ghost use Rattle.spec_world.specs.World.{World as Plain};
ghost use Rattle.spec_world.specs.Step.{Step as Meant, AllInRange, in_range};
ghost use Rattle.spec_world.specs.Questions.{apply, apply_all, new_next};
ghost use Rattle.view.specs.Facets.{DoesLast};
ghost use Rattle.view.specs.Meanings.{change_of};
ghost use Rattle.view.specs.Sound.{IsSound};
ghost use Rattle.speculate.specs.Lanes.{AllOwn, IsOwn, Apart, DoesOn, IsUnderWay, HasRun};
ghost use Rattle.speculate.specs.Tables.{IsThere, Grows};

use crate::fence::Objects;
use crate::here::take_over;
use std::alloc::{AllocError, Global};
use std::marker::Model;
use std::mem;
use std::snapshot::Snapshot as Remembered;
use task_run::rooms::Rooms;
use task_run::step::run_step;
use task_step::outcome::Outcome;
use task_step::step::Step;
use view::change::Change;
use view::changes::Changes;
use world::draft::Draft;
use world::marking::Marking;
use world::worlds::{Snapshot, World};

// Up to so many changes are looked at for an earlier one of the same slot.
const FEW: usize = 256;

// So many objects have a place in a lane's tables.
const MOST_OBJECTS: usize = 1 << 20;

/// The outcome of the step at a position.
#[derive(Drop)]
pub(crate) struct Told {
    pub(crate) position: usize,
    pub(crate) outcome: Outcome,
    // The step, and its changes.
    pub(crate) step: Remembered<Step>,
    pub(crate) changes: Remembered<Changes>,
}

impl Model for Told {
    ghost use Rattle.speculate.specs.Moves.{Move, move_code};

    ghost Value = { Move };

    ghost coded = { move_code };

    ghost view = { λ t. record { position = t.position; step = t.step.value; changes = t.changes.value; outcome = t.outcome } };
}

/// What the steps of a lane did.
#[derive(Drop)]
pub(crate) struct Lane {
    // Which steps it runs.
    pub(crate) color: u8,
    // What is told of each step.
    pub(crate) told: Vec<Told>,
    // The objects on which slots were asked for, and those on which slots have other values.
    pub(crate) read: Objects,
    pub(crate) changed: Objects,
    // What all of them changed together, and which number the next step has at least.
    pub(crate) net: Changes,
    pub(crate) next: u64,
}

// Memory for the changes, the objects and the task of a step. What is there does not count.
#[derive(Drop)]
struct LaneRoom {
    changes: Changes,
    objects: Vec<i32>,
    task: Rooms,
}

impl Lane {
    /// Whether it changes nothing that the other one asks for or changes.
    pub(crate) fn is_apart(&self, other: &Lane) -> bool
        ensures { IsTrue result → Apart self.now.changed other.now.read × Apart self.now.changed other.now.changed }
    {
        self.changed.are_apart(&other.read) && self.changed.are_apart(&other.changed)
    }
}

/// Runs the steps of a color, one after another, from a snapshot on. None after want of memory, and where a step does more than to give slots other values.
pub(crate) fn run_lane(
    alloc: Global,
    home: &Snapshot,
    steps: &[Step],
    colors: &[u8],
    color: u8,
) -> Option<Lane>
    requires { AllInRange steps.now }
    ensures { IfSome result (λ l. HasRun home.now steps.now l) }
{
    let Ok(begun) = begun(alloc, home, color) else {
        return None;
    };
    let (mut world, mut lane) = begun;
    let mut room = LaneRoom {
        changes: Changes::new(alloc),
        objects: Vec::new(alloc),
        task: Rooms::new(),
    };
    'at: for at in 0..steps.len() {
        if !run_if(
            alloc, colors, color, &mut world, &mut lane, &mut room, steps, at,
        ) {
            return None;
        }
    }
    turn(&mut lane.told);
    Some(lane)
}

// A lane that has run nothing, and its world.
fn begun(alloc: Global, home: &Snapshot, color: u8) -> Result<(World, Lane), AllocError>
    ensures { (steps : List Meant) → IfOk result (λ r. IsUnderWay home.now steps r.1 r.0.plain) }
{
    home.know();
    let draft = home.share()?;
    let count = objects_up_to(draft.greatest());
    let lane = Lane {
        color,
        told: Vec::new(alloc),
        read: Objects::none(alloc, count)?,
        changed: Objects::none(alloc, count)?,
        net: Changes::new(alloc),
        next: 0,
    };
    Ok((World::of_draft(draft), lane))
}

// How many objects have numbers up to this one, as far as a lane has a place for them.
fn objects_up_to(greatest: i32) -> usize {
    if greatest < 0 {
        return 0;
    }
    (greatest as usize).saturating_add(1).min(MOST_OBJECTS)
}

// Whether the step at a position has this color.
#[inline(always)]
fn has_color(colors: &[u8], at: usize, color: u8) -> bool {
    match colors.get(at) {
        Some(other) => *other == color,
        None => false,
    }
}

// The last one comes first.
fn turn(told: &mut Vec<Told>)
    ensures { told.new.items ≡ reverse told.old.items }
{
    told.reverse();
}

// Runs the step at a position, if it has this color. False where the lane cannot go on.
#[inline(always)]
fn run_if(
    alloc: Global,
    colors: &[u8],
    color: u8,
    world: &mut World,
    lane: &mut Lane,
    room: &mut LaneRoom,
    steps: &[Step],
    at: usize,
) -> bool
    requires range { AllInRange steps.now }
    requires at { at < length steps.now }
    ensures { (base : Plain) → IsUnderWay base steps.now lane.old world.old.plain → IsTrue result → IsUnderWay base steps.now lane.new world.new.plain }
{
    if !has_color(colors, at, color) {
        return true;
    }
    run_one(alloc, world, lane, room, steps, at)
}

// The same of any color.
fn run_one(
    alloc: Global,
    world: &mut World,
    lane: &mut Lane,
    room: &mut LaneRoom,
    steps: &[Step],
    at: usize,
) -> bool
    requires range { AllInRange steps.now }
    requires at { at < length steps.now }
    ensures { (base : Plain) → IsUnderWay base steps.now lane.old world.old.plain → IsTrue result → IsUnderWay base steps.now lane.new world.new.plain }
{
    let step = &steps[at];
    let Ok((changes, after, outcome, objects)) = deeds(alloc, world, room, step) else {
        return false;
    };
    if !note(lane, objects.as_slice(), &changes) {
        return false;
    }
    if take_over(world, &changes, after).is_err() {
        return false;
    }
    let is_told = tell(&mut lane.told, at, step, &changes, outcome);
    room.changes = changes;
    room.objects = objects;
    is_told
}

// What a step does to a world, which stays as it is, in the room of an earlier one: its changes, the records with them, where they were made, its outcome, and the
// objects on which slots were asked for.
#[inline(always)]
fn deeds(
    alloc: Global,
    world: &World,
    room: &mut LaneRoom,
    step: &Step,
) -> Result<(Changes, Option<Draft>, Outcome, Vec<i32>), AllocError>
    requires { IsTrue (in_range step.now) }
    ensures does { IfOk result (λ r. DoesOn r.3.items world.now.plain step.now r.0 r.2) }
    ensures sound { IfOk result (λ r. IsSound (apply_all r.0 world.now.plain)) }
    ensures after { IfOk result (λ r. IfSome r.1 (λ d. d ≡ apply_all r.0 world.now.plain)) }
{
    let changes = mem::replace(&mut room.changes, Changes::new(alloc));
    let objects = mem::replace(&mut room.objects, Vec::new(alloc));
    let mut view = Marking::over(alloc, world, changes, objects);
    let outcome = run_step(alloc, &mut view, &mut room.task, step)?;
    let (changes, after, objects) = view.finish();
    Ok((changes, after, outcome, objects))
}

// On which objects a step asked for slots, and what it changes. False where an object is none of the table, or a change is none of a slot's value or of the next
// step's number.
#[inline(always)]
fn note(lane: &mut Lane, objects: &[i32], changes: &Changes) -> bool
    ensures told { lane.new.told.items ≡ lane.old.told.items }
    ensures read { Grows lane.old.read lane.new.read }
    ensures there { IsTrue result → (o : ℤ) → Contains objects.now o → IsThere lane.new.read o }
    ensures changed { Grows lane.old.changed lane.new.changed }
    ensures own { IsTrue result → AllOwn lane.new.changed changes.now }
    ensures summed { IsTrue result → (w : Plain) → apply (new_next lane.new.next) (apply_all lane.new.net w) ≡ apply_all changes.now (apply (new_next lane.old.next) (apply_all lane.old.net w)) }
{
    note_slots(&mut lane.read, objects)
        && note_changes(
            &mut lane.changed,
            &mut lane.net,
            &mut lane.next,
            changes.as_slice(),
        )
}

// The objects on which slots were asked for. False where one is none of the table.
#[inline(always)]
fn note_slots(read: &mut Objects, objects: &[i32]) -> bool
    ensures grows { Grows read.old read.new }
    ensures there { IsTrue result → (o : ℤ) → Contains objects.now o → IsThere read.new o }
{
    'at: for at in 0..objects.len() {
        if !note_slot(read, objects, at) {
            return false;
        }
    }
    true
}

// One of them.
#[inline(always)]
fn note_slot(read: &mut Objects, objects: &[i32], at: usize) -> bool
    ensures grows { Grows read.old read.new }
    ensures there { IsTrue result → (o : ℤ) → slice_get objects.now at ≡ Some o → IsThere read.new o }
{
    match objects.get(at) {
        Some(object) => read.add(*object),
        None => true,
    }
}

// Changes of a step more. False where they are not all of values of slots and of the next step's number.
fn note_changes(
    changed: &mut Objects,
    net: &mut Changes,
    next: &mut u64,
    changes: &[Change],
) -> bool
    ensures changed { Grows changed.old changed.new }
    ensures own { IsTrue result → AllOwn changed.new (map change_of changes.now) }
    ensures summed { IsTrue result → (w : Plain) → apply (new_next next.new) (apply_all net.new w) ≡ apply_all (map change_of changes.now) (apply (new_next next.old) (apply_all net.old w)) }
{
    for change in changes {
        if !note_change(changed, net, next, change) {
            return false;
        }
    }
    true
}

// The same of one.
#[inline(always)]
fn note_change(changed: &mut Objects, net: &mut Changes, next: &mut u64, change: &Change) -> bool
    ensures changed { Grows changed.old changed.new }
    ensures own { IsTrue result → IsOwn changed.new (change_of change.now) }
    ensures summed { IsTrue result → (w : Plain) → apply (new_next next.new) (apply_all net.new w) ≡ apply (change_of change.now) (apply (new_next next.old) (apply_all net.old w)) }
{
    match change {
        Change::Next(number) => {
            *next = (*next).max(*number);
            true
        }
        Change::Value(object, _, _) => { changed.add(*object) && keep(net, change) }
        _ => false,
    }
}

// A change more. Where few are there it takes the place of an earlier one of the same slot.
#[inline(always)]
fn keep(net: &mut Changes, change: &Change) -> bool
    ensures { IsTrue result → DoesLast (change_of change.now) net.old net.new }
{
    let Ok(copy) = change.clone() else {
        return false;
    };
    if net.as_slice().len() < FEW {
        net.put(copy).is_ok()
    } else {
        net.push(copy).is_ok()
    }
}

// The outcome of a step more.
#[inline(always)]
fn tell(
    told: &mut Vec<Told>,
    position: usize,
    step: &Step,
    changes: &Changes,
    outcome: Outcome,
) -> bool
    ensures { IsTrue result → told.new.items ≡ told.old.items ++ record { position = position; step = step.now; changes = changes.now; outcome = outcome } ∷ [] }
{
    if told.reserve(1).is_err() {
        return false;
    }
    told.push_reserved(Told {
        position,
        outcome,
        step: Remembered::of(step),
        changes: Remembered::of(changes),
    });
    true
}
