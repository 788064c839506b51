//! The moments for which tasks wait, with their keys.
ghost use Rattle.std.specs.Prelude.{◌≡◌, ◌<◌, None, IfOk, map, option_map};
ghost use Rattle.std.specs.List.{AllByRecursion};
ghost use Rattle.std.specs.Option.{option_and_then};
ghost use Rattle.moo_task.specs.Waits.{due_at};
ghost use Rattle.world.specs.Due.{due_of, first_due_from};
ghost use Rattle.world.specs.Numbered.{signed_key};

use crate::tasks::{id_of, key_of};
use due_table::DueTable;
use moo_task::task::Task;
use std::alloc::{AllocError, Global};

/// The moment for which a task waits, if there is a task and it waits for one.
pub(crate) fn moment_of(task: Option<&Task>) -> Option<u32>
    ensures { result ≡ option_and_then (λ t. due_at t.waiting) (option_map (λ t. t.now) task.entry) }
{
    task?.due()
}

/// The first task of this moment and this id, or after it, with its moment. No other is looked at.
pub(crate) fn next_due(moments: &DueTable, moment: u32, id: i32) -> Option<(u32, i32)>
    ensures { result ≡ first_due_from moment id (map (λ d. (d.0, signed_key d.1)) moments.now) }
{
    match moments.next_from(moment, key_of(id)) {
        Some((found, key)) => Some((found, id_of(key))),
        None => None,
    }
}

/// The ids of those whose moment has come, in order. No other is looked at.
pub(crate) fn gather_due(
    alloc: Global,
    moments: &DueTable,
    now: u32,
) -> Result<Vec<i32>, AllocError>
    ensures { IfOk result (λ ids. ids.items ≡ map signed_key (due_of now moments.now)) }
{
    let _sorted = moments.is_empty();
    let mut ids = Vec::new(alloc);
    let mut moment = 0;
    let mut key = 0;
    while let Some((found, found_key)) = moments.next_from(moment, key) {
        if found > now {
            return Ok(ids);
        }
        ids.push(id_of(found_key))?;
        moment = found;
        key = found_key + 1;
    }
    Ok(ids)
}
