//! Tasks that are ended.
ghost use Rattle.std.specs.Prelude.{◌≡◌, [], ◌∷◌, IfOk, OnOk};
ghost use Rattle.spec_value.specs.Datum.{integer};
ghost use Rattle.spec_moo.specs.Natives.Tasks.{is_own_id, kills, kill_task_row};
ghost use Rattle.moo_value.specs.Answers.{answer_of};
ghost use Rattle.view.specs.Law.{Goes, Lasts};
ghost use Rattle.rules.specs.Lines.{AreAgreeing};
ghost use Rattle.builtins_view.specs.Said.{Does};
ghost use Rattle.builtins.specs.BuiltinsQueueActing.{Acts};

use crate::builtins_queue::owners::programmer_of;
use moo_task::deeds::Deeds;
use moo_task::effect::NativeEffect;
use moo_value::answer::Answer;
use moo_value::error::MooError;
use moo_value::value::Value;
use rules::permissions::act::Act;
use rules::permissions::may::may;
use std::alloc::AllocError;
use view::law::View;
use view::readers::{read_task, write_task};

/// `kill_task`: the task that calls it dies by its own id, and one that waits goes. `E_INVARG` where there is no such task, `E_PERM`
/// where the programmer may not control it.
pub fn kill_task<V: View>(
    view: &mut V,
    deeds: &Deeds,
    programmer: i32,
    id: i32,
) -> Result<NativeEffect, AllocError>
    requires home { V.holds view.old (V.home view.old) }
    ensures lasts { Lasts V.holds V.home V.anchor view.old view.new result }
    ensures left { IfOk result (λ e. Goes V.holds V.now view.old view.new
        (λ before after. Acts (λ s c. kill_task_row s c (integer id ∷ [])) deeds.now before programmer e after)) }
    ensures well_formed { AreAgreeing V.holds V.now view.old → OnOk result (AreAgreeing V.holds V.now view.new) }
{
    let own = is_own(deeds, id);
    if own {
        return Ok(NativeEffect::Dies);
    }
    let answer = kill(view, programmer, id)?;
    Ok(NativeEffect::Answers(answer))
}

fn is_own(deeds: &Deeds, id: i32) -> bool
    ensures { result ≡ is_own_id id deeds.now.task }
{
    match deeds.task {
        Some(own) => id == own,
        None => false,
    }
}

// A task that waits goes.
fn kill<V: View>(view: &mut V, programmer: i32, id: i32) -> Result<Answer, AllocError>
    requires home { V.holds view.old (V.home view.old) }
    ensures lasts { Lasts V.holds V.home V.anchor view.old view.new result }
    ensures left { IfOk result (λ a. Goes V.holds V.now view.old view.new
        (λ before after. Does (λ s c. kills s c id) before after programmer (answer_of a))) }
{
    let Some(task) = read_task(view, id)? else {
        return Ok(Err(MooError::InvalidArgument));
    };
    let owner = programmer_of(&task);
    let allowed = may(view, programmer, &Act::ControlTask(owner))?;
    if !allowed {
        return Ok(Err(MooError::PermissionDenied));
    }
    write_task(view, id, None)?;
    Ok(Ok(Value::integer(0)))
}
