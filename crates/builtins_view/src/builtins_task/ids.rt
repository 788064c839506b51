//! Ids of tasks.
ghost use Rattle.std.specs.Prelude.{◌≡◌, ℕ, ℤ, suc, IfOk, OnErr};
ghost use Rattle.spec_moo.specs.Scene.{id_of};
ghost use Rattle.builtins_view.specs.Named.{IsNamed};

use moo_task::deeds::Deeds;
use std::alloc::AllocError;

/// How many ids a step has.
pub const MOST_IDS: u32 = 64;

/// The id of a task that a step queues, by the step's number and by how many came before it. No step's number is so great that it
/// had none.
pub fn task_id(number: u32, before: u32) -> Result<i32, AllocError>
    ensures { IfOk result (λ i. i ≡ id_of number (suc before)) }
{
    let steps = u64::from(number.saturating_sub(1));
    let id = steps * u64::from(MOST_IDS) + u64::from(before) + 1;
    match i32::try_from(id) {
        Ok(id) => Ok(id),
        Err(_) => Err(AllocError),
    }
}

/// The id of the task that runs: its own, or the next one of the step, which it then has. None where the step has none left.
pub fn own_id(deeds: &mut Deeds) -> Result<Option<i32>, AllocError>
    ensures { IfOk result (λ i. IsNamed deeds.old i deeds.new) }
{
    if let Some(id) = deeds.task {
        return Ok(Some(id));
    }
    if deeds.ids_used >= MOST_IDS {
        return Ok(None);
    }
    let id = task_id(deeds.number, deeds.ids_used)?;
    deeds.ids_used += 1;
    deeds.task = Some(id);
    Ok(Some(id))
}
