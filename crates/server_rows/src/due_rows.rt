//! Which tasks of a world are due, and in what order.
use moo_value::text::Text;
use speculate::gate::Free;
use speculate::list::run_list;
use std::alloc::{AllocError, Global};
use std::rt::Clock;
use std::sync::Wait;
use std::test::Fail;
use std::thread::Threads;
use task_step::step::{Event, Step};
use world::worlds::World;
use world_fixture::fixture::fixture;

// A step whose line waits.
fn waits(number: u32, moment: u32, line: Text) -> Step {
    Step {
        number,
        moment,
        key: [0u8; 32],
        event: Event::Line(1, line),
    }
}

// Steps after which the tasks 1, 65, 129 and 193 wait: until 12, until 10, for no moment, and until 12.
fn steps(alloc: Global) -> Result<Vec<Step>, AllocError> {
    let mut steps = Vec::with_capacity(alloc, 4)?;
    steps.push(waits(1, 7, Text::from_str(alloc, ";suspend(5)")?))?;
    steps.push(waits(2, 9, Text::from_str(alloc, ";suspend(1)")?))?;
    steps.push(waits(3, 9, Text::from_str(alloc, ";suspend()")?))?;
    steps.push(waits(4, 3, Text::from_str(alloc, ";suspend(9)")?))?;
    Ok(steps)
}

// The world in which these tasks wait.
fn waiting<R: Threads + Wait + Clock + Sync + AllocGlobal>(rt: &R) -> Result<World, AllocError> {
    let alloc = rt.alloc();
    let steps = steps(alloc)?;
    match run_list(rt, alloc, &Free, fixture(alloc)?, steps.as_slice(), 1) {
        Ok(report) => Ok(report.world),
        Err(partial) => Ok(partial.world),
    }
}

// The ids of what is due.
fn due(alloc: Global, world: &World, moment: u32) -> Result<String, AllocError> {
    let ids = world.due(alloc, moment)?;
    format!(in alloc; "{:?}", ids.as_slice())
}

#[test]
fn what_is_due(rt: HostRuntime) -> Result<(), Fail> {
    let alloc = rt.alloc();
    let world = waiting(&rt)?;
    assert_eq!(rt; due(alloc, &world, 9)?.as_str(), "[]");
    assert_eq!(rt; due(alloc, &world, 11)?.as_str(), "[65]");
    assert_eq!(rt; due(alloc, &world, 12)?.as_str(), "[65, 1, 193]");
    Ok(())
}

#[test]
fn the_next_one(rt: HostRuntime) -> Result<(), Fail> {
    let world = waiting(&rt)?;
    assert_eq!(rt; world.next_due(0, i32::MIN), Some((10, 65)));
    assert_eq!(rt; world.next_due(10, 66), Some((12, 1)));
    assert_eq!(rt; world.next_due(12, 2), Some((12, 193)));
    assert_eq!(rt; world.next_due(12, 194), None);
    Ok(())
}
