//! Tasks that are listed.
ghost use Rattle.std.specs.Prelude.{◌≡◌, ◌++◌, [], pos, IfOk, OnOk};
ghost use Rattle.spec_value.specs.Datum.{integer};
ghost use Rattle.spec_value.specs.Table.{at};
ghost use Rattle.spec_moo.specs.Natives.Tasks.{innermost, due_value as due_value_of, task_value as task_value_of, queued_tasks_row};
ghost use Rattle.spec_moo.specs.Natives.Rows.{list_value};
ghost use Rattle.moo_value.specs.Answers.{answer_of};
ghost use Rattle.moo_task.specs.Effects.{waiting_of};
ghost use Rattle.view.specs.Law.{Lasts, Tells};
ghost use Rattle.rules.specs.Lines.{AreAgreeing};
ghost use Rattle.builtins_view.specs.Said.{Says};
ghost use Rattle.builtins.specs.Listed.{seen_task, seen_at, seen_of};

use crate::builtins_queue::owners::programmer_of;
use moo_task::effect::Waiting;
use moo_task::task::Task;
use moo_value::answer::Answer;
use moo_value::value::Value;
use rules::permissions::may::is_wizard;
use std::alloc::{AllocError, Global};
use view::law::View;
use view::readers::{read_task, read_waiting};

/// `queued_tasks`: for each task that waits, its id, when it is due, and its innermost verb's programmer, definer, name and object: one's
/// own, and of a wizard all.
pub fn queued_tasks<V: View>(
    alloc: Global,
    view: &mut V,
    programmer: i32,
) -> Result<Answer, AllocError>
    requires home { V.holds view.old (V.home view.old) }
    requires well_formed { AreAgreeing V.holds V.now view.old }
    ensures lasts { Lasts V.holds V.home V.anchor view.old view.new result }
    ensures left { IfOk result (λ a. Tells V.holds V.now view.old view.new
        (λ w. Says (λ s c. queued_tasks_row s c []) w programmer (answer_of a))) }
{
    let all = is_wizard(view, programmer)?;
    let ids = read_waiting(view)?;
    let items = seen(alloc, view, all, programmer, ids.as_slice())?;
    let value = Value::list(items)?;
    Ok(Ok(value))
}

// What is seen of the tasks of these ids.
fn seen<V: View>(
    alloc: Global,
    view: &mut V,
    all: bool,
    programmer: i32,
    ids: &[i32],
) -> Result<Vec<Value>, AllocError>
    requires home { V.holds view.old (V.home view.old) }
    ensures lasts { Lasts V.holds V.home V.anchor view.old view.new result }
    ensures left { IfOk result (λ vs. Tells V.holds V.now view.old view.new (λ w. seen_of all programmer w.tasks ids.now ≡ vs.items)) }
{
    let mut items = Vec::new(alloc);
    for id in ids {
        see(alloc, view, &mut items, all, programmer, *id)?;
    }
    Ok(items)
}

// What is seen of a task, if it is there.
fn see<V: View>(
    alloc: Global,
    view: &mut V,
    items: &mut Vec<Value>,
    all: bool,
    programmer: i32,
    id: i32,
) -> Result<(), AllocError>
    ensures lasts { Lasts V.holds V.home V.anchor view.old view.new result }
    ensures left { OnOk result (Tells V.holds V.now view.old view.new
        (λ w. items.new.items ≡ items.old.items ++ seen_at all programmer id (at w.tasks id))) }
{
    let Some(task) = read_task(view, id)? else {
        return Ok(());
    };
    push_seen(alloc, items, all, programmer, id, &task)?;
    Ok(())
}

// One's own task, or any for who sees all.
fn push_seen(
    alloc: Global,
    items: &mut Vec<Value>,
    all: bool,
    programmer: i32,
    id: i32,
    task: &Task,
) -> Result<(), AllocError>
    ensures { OnOk result (items.new.items ≡ items.old.items ++ seen_task all programmer id task.now) }
{
    let owner = programmer_of(task);
    if !all && owner != programmer {
        return Ok(());
    }
    let value = task_value(alloc, id, task)?;
    items.push(value)?;
    Ok(())
}

fn task_value(alloc: Global, id: i32, task: &Task) -> Result<Value, AllocError>
    ensures { IfOk result (λ v. v ≡ task_value_of id task.now.waiting (innermost task.now.entries)) }
{
    let call = task.call();
    let due = due_value(task.waiting())?;
    let verb = Value::text(call.verb.clone()?);
    let items = vec![in alloc;
        Value::integer(id),
        due,
        Value::object(call.programmer),
        Value::object(call.definer),
        verb,
        Value::object(call.this),
    ]?;
    Value::list(items)
}

// The moment at which it is due, -1 where it is idle and -2 where it reads. No moment is more than an integer says.
fn due_value(waiting: &Waiting) -> Result<Value, AllocError>
    ensures { IfOk result (λ v. v ≡ due_value_of (waiting_of waiting.now)) }
{
    match waiting {
        Waiting::Forked(due) => moment_value(*due),
        Waiting::Timed(due, _) => moment_value(*due),
        Waiting::Idle => Ok(Value::integer(-1)),
        Waiting::ReadingOn(_) => Ok(Value::integer(-2)),
    }
}

fn moment_value(moment: u32) -> Result<Value, AllocError>
    ensures { IfOk result (λ v. v ≡ integer (pos moment)) }
{
    match i32::try_from(moment) {
        Ok(moment) => Ok(Value::integer(moment)),
        Err(_) => Err(AllocError),
    }
}
