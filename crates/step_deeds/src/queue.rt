//! The queue of tasks.
ghost use Rattle.std.specs.Prelude.{◌≡◌, ℕ, OnOk};
ghost use Rattle.spec_moo.specs.Scene.{enqueued};
ghost use Rattle.spec_moo.specs.Scene.{due_of as due_when};
ghost use Rattle.moo_task.specs.Deeds.{scene_of, due_of};
ghost use Rattle.moo_task.specs.Effects.{waiting_of};
ghost use Rattle.view.specs.Law.{Goes, Lasts};

use moo_task::deeds::{Deeds, Due, Queued};
use moo_task::effect::Waiting;
use moo_task::task::Task;
use std::alloc::AllocError;
use view::law::View;
use view::readers::write_task;

/// A task is put into the queue at an id. One that is there already is replaced.
pub fn enqueue<V: View>(
    view: &mut V,
    deeds: &mut Deeds,
    id: i32,
    task: Task,
) -> Result<(), AllocError>
    ensures lasts { Lasts V.holds V.home V.anchor view.old view.new result }
    ensures left { OnOk result (Goes V.holds V.now view.old view.new
        (λ before after. (t : ℕ) → scene_of deeds.new after t ≡ enqueued (scene_of deeds.old before t) id task)) }
{
    let due = due(task.waiting());
    write_task(view, id, Some(task))?;
    deeds.queued.push(Queued { id, due })?;
    Ok(())
}

/// When a task is due that waits so.
pub fn due(waiting: &Waiting) -> Due
    ensures { due_of result ≡ due_when (waiting_of waiting.now) }
{
    match waiting {
        Waiting::Forked(moment) => Due::AtMoment(*moment),
        Waiting::Timed(moment, _) => Due::AtMoment(*moment),
        Waiting::Idle => Due::Never,
        Waiting::ReadingOn(_) => Due::WhenRead,
    }
}
