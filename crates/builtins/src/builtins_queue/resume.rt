//! Tasks that go on.
ghost use Rattle.std.specs.Prelude.{◌≡◌, ◌≤◌, [], ◌∷◌, IfOk, OnOk};
ghost use Rattle.spec_value.specs.Datum.{integer};
ghost use Rattle.spec_moo.specs.Natives.Tasks.{is_suspended as is_suspended_of, resumes, resume_row};
ghost use Rattle.moo_task.specs.Effects.{waiting_of};
ghost use Rattle.moo_task.specs.declared.effect.NativeEffect.TheVariants.{Answers};
ghost use Rattle.view.specs.Law.{Goes, Lasts};
ghost use Rattle.rules.specs.Lines.{AreAgreeing};
ghost use Rattle.builtins.specs.BuiltinsQueueActing.{Acts};

use crate::builtins_queue::owners::programmer_of;
use moo_task::deeds::Deeds;
use moo_task::effect::Waiting;
use moo_value::answer::Answer;
use moo_value::error::MooError;
use moo_value::value::Value;
use rules::permissions::act::Act;
use rules::permissions::may::may;
use std::alloc::AllocError;
use view::law::View;
use view::readers::{read_task, write_task};

/// `resume`: a task that is suspended goes on, with 0.
pub fn resume<V: View>(
    view: &mut V,
    deeds: &Deeds,
    programmer: i32,
    id: i32,
) -> Result<Answer, AllocError>
    requires home { V.holds view.old (V.home view.old) }
    ensures lasts { Lasts V.holds V.home V.anchor view.old view.new result }
    ensures left { IfOk result (λ a. Goes V.holds V.now view.old view.new
        (λ before after. Acts (λ s c. resume_row s c (integer id ∷ [])) deeds.now before programmer (Answers a) after)) }
    ensures well_formed { AreAgreeing V.holds V.now view.old → OnOk result (AreAgreeing V.holds V.now view.new) }
{
    let zero = Value::integer(0);
    let answer = resume_with(view, deeds, programmer, id, zero)?;
    Ok(answer)
}

/// `resume` with the value of its `suspend`. `E_INVARG` where there is no such task, `E_PERM` where the programmer may not control it,
/// `E_INVARG` where it is not suspended.
pub fn resume_with<V: View>(
    view: &mut V,
    deeds: &Deeds,
    programmer: i32,
    id: i32,
    value: Value,
) -> Result<Answer, AllocError>
    requires home { V.holds view.old (V.home view.old) }
    ensures lasts { Lasts V.holds V.home V.anchor view.old view.new result }
    ensures left { IfOk result (λ a. Goes V.holds V.now view.old view.new
        (λ before after. Acts (λ s c. resume_row s c (integer id ∷ value ∷ [])) deeds.now before programmer (Answers a) after)) }
    ensures well_formed { AreAgreeing V.holds V.now view.old → OnOk result (AreAgreeing V.holds V.now view.new) }
{
    let answer = give_value(view, deeds, programmer, id, value)?;
    Ok(answer)
}

// A task has a value at the step's moment.
fn give_value<V: View>(
    view: &mut V,
    deeds: &Deeds,
    programmer: i32,
    id: i32,
    value: Value,
) -> Result<Answer, AllocError>
    requires home { V.holds view.old (V.home view.old) }
    ensures lasts { Lasts V.holds V.home V.anchor view.old view.new result }
    ensures left { IfOk result (λ a. Goes V.holds V.now view.old view.new
        (λ before after. Acts (λ s c. resumes s c id value) deeds.now before programmer (Answers a) after)) }
{
    let Some(task) = read_task(view, id)? else {
        return Ok(Err(MooError::InvalidArgument));
    };
    let owner = programmer_of(&task);
    let allowed = may(view, programmer, &Act::ControlTask(owner))?;
    if !allowed {
        return Ok(Err(MooError::PermissionDenied));
    }
    let suspended = is_suspended(task.waiting());
    if !suspended {
        return Ok(Err(MooError::InvalidArgument));
    }
    let resumed = task.resumed(deeds.moment, value)?;
    write_task(view, id, Some(resumed))?;
    Ok(Ok(Value::integer(0)))
}

fn is_suspended(waiting: &Waiting) -> bool
    ensures { result ≡ is_suspended_of (waiting_of waiting.now) }
{
    matches!(waiting, Waiting::Timed(_, _) | Waiting::Idle)
}
