//! The server (Programmer's Manual, "Administrative Operations").
ghost use Rattle.std.specs.Prelude.{◌≡◌, ℕ, [], IfOk};
ghost use Rattle.spec_moo.specs.NativeEffect.{Caller, answers};
ghost use Rattle.spec_moo.specs.Natives.Tasks.{dump_database_row, shutdown_row};
ghost use Rattle.builtins_view.specs.Said.{with_programmer, Does};
ghost use Rattle.moo_value.specs.Answers.{answer_of};
ghost use Rattle.moo_task.specs.Deeds.{scene_of};
ghost use Rattle.view.specs.Law.{Goes, Lasts, Tells};

use moo_task::deeds::Deeds;
use moo_value::answer::Answer;
use moo_value::error::MooError;
use moo_value::value::Value;
use rules::permissions::act::Act;
use rules::permissions::may::may;
use std::alloc::AllocError;
use view::law::View;
use view::readers::write_ending;

/// `dump_database`: a checkpoint is asked for. `E_PERM` for all but wizards.
pub fn dump_database<V: View>(
    view: &mut V,
    deeds: &mut Deeds,
    programmer: i32,
) -> Result<Answer, AllocError>
    requires home { V.holds view.old (V.home view.old) }
    ensures lasts { Lasts V.holds V.home V.anchor view.old view.new result }
    ensures left { IfOk result (λ a. Tells V.holds V.now view.old view.new (λ w. (t : ℕ) (c : Caller) →
        dump_database_row (scene_of deeds.old w t) (with_programmer c programmer) [] ≡ answers (scene_of deeds.new w t) (answer_of a))) }
{
    if !may(view, programmer, &Act::Administer)? {
        return Ok(Err(MooError::PermissionDenied));
    }
    deeds.checkpoint = true;
    Ok(Ok(Value::integer(0)))
}

/// `shutdown`: the server is about to end. `E_PERM` for all but wizards.
pub fn shutdown<V: View>(view: &mut V, programmer: i32) -> Result<Answer, AllocError>
    requires home { V.holds view.old (V.home view.old) }
    ensures lasts { Lasts V.holds V.home V.anchor view.old view.new result }
    ensures left { IfOk result (λ a. Goes V.holds V.now view.old view.new
        (λ before after. Does (λ s c. shutdown_row s c []) before after programmer (answer_of a))) }
{
    if !may(view, programmer, &Act::Administer)? {
        return Ok(Err(MooError::PermissionDenied));
    }
    write_ending(view, true)?;
    Ok(Ok(Value::integer(0)))
}
