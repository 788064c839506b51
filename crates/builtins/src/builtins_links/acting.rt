//! Who may act as an object.
ghost use Rattle.std.specs.Prelude.{◌≡◌, [], ◌∷◌, IfOk};
ghost use Rattle.spec_value.specs.Datum.{object as object_of};
ghost use Rattle.spec_moo.specs.NativeEffect.{Caller};
ghost use Rattle.spec_moo.specs.Natives.Tasks.{set_task_perms_row};
ghost use Rattle.spec_moo.specs.Scene.{Scene, in_world};
ghost use Rattle.moo_task.specs.Effects.{effect_of};
ghost use Rattle.view.specs.Law.{Lasts, Tells};
ghost use Rattle.builtins_view.specs.Said.{with_programmer};
ghost use Rattle.builtins.specs.Refused.{IsRefusal};

use moo_task::effect::NativeEffect;
use moo_value::error::MooError;
use rules::permissions::act::Act;
use rules::permissions::may::may;
use std::alloc::AllocError;
use view::law::View;
use view::readers::read_header;

/// `set_task_perms`: the verb that calls it goes on with another programmer. `E_INVARG` where the object is not there, `E_PERM` where
/// the programmer may not act as it.
pub fn set_task_perms<V: View>(
    view: &mut V,
    programmer: i32,
    object: i32,
) -> Result<NativeEffect, AllocError>
    requires home { V.holds view.old (V.home view.old) }
    ensures lasts { Lasts V.holds V.home V.anchor view.old view.new result }
    ensures left { IfOk result (λ e. Tells V.holds V.now view.old view.new (λ w. (s : Scene) (c : Caller) →
        set_task_perms_row (in_world s w) (with_programmer c programmer) (object_of object ∷ []) ≡ effect_of e (in_world s w))) }
{
    let refused = refusal(view, programmer, object)?;
    match refused {
        Some(error) => Ok(NativeEffect::Answers(Err(error))),
        None => Ok(NativeEffect::Becomes(object)),
    }
}

/// Why a programmer may not act as an object: `E_INVARG` where it is not there, else `E_PERM`.
pub fn refusal<V: View>(
    view: &mut V,
    programmer: i32,
    object: i32,
) -> Result<Option<MooError>, AllocError>
    requires home { V.holds view.old (V.home view.old) }
    ensures lasts { Lasts V.holds V.home V.anchor view.old view.new result }
    ensures left { IfOk result (λ r. Tells V.holds V.now view.old view.new (λ w. IsRefusal w programmer object r)) }
{
    let header = read_header(view, object)?;
    if header.is_none() {
        return Ok(Some(MooError::InvalidArgument));
    }
    let allowed = may(view, programmer, &Act::ActAs(object))?;
    if !allowed {
        return Ok(Some(MooError::PermissionDenied));
    }
    Ok(None)
}
