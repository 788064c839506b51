//! The tasks that are due.
use crate::draft::Draft;
use std::alloc::AllocError;
use task_step::step::Event;
use world::worlds::World;

/// The most tasks of a list, so that lines and sockets have their turn.
const MOST_TASKS: usize = 32;

/// Adds a step for each task that is due, by their moments and then by their numbers, as many as a list takes. No other task is looked at.
pub fn add_due(draft: &mut Draft, world: &World) -> Result<(), AllocError> {
    let mut moment = 0;
    let mut task = i32::MIN;
    'task: for _ in 0..MOST_TASKS {
        let Some((due, number)) = world.next_due(moment, task) else {
            return Ok(());
        };
        if due > draft.moment() || draft.is_full() {
            return Ok(());
        }
        draft.push(Event::Ready(number))?;
        moment = due;
        // No task has the greatest number.
        task = number.saturating_add(1);
    }
    Ok(())
}

/// The moment at which the first task is due, if one waits for a moment.
pub fn next_moment(world: &World) -> Option<u32> {
    let (moment, _) = world.next_due(0, i32::MIN)?;
    Some(moment)
}
