//! Objects that go (Programmer's Manual, `recycle()`).
ghost use Rattle.std.specs.Prelude.{◌≡◌, ℕ, ◌∷◌, [], option_map, codes, IfOk, OnOk};
ghost use Rattle.spec_value.specs.Datum.{object as object_of, no_data};
ghost use Rattle.spec_world.specs.World.{recycle_native};
ghost use Rattle.spec_moo.specs.Natives.Objects.{recycle_row, recycle_now as recycle_now_of, stage};
ghost use Rattle.spec_moo.specs.Natives.Rows.{answers_with, zero_value};
ghost use Rattle.moo_value.specs.Errors.{code_of};
ghost use Rattle.moo_task.specs.Deeds.{scene_of};
ghost use Rattle.moo_task.specs.Effects.{effect_of};
ghost use Rattle.rules.specs.Lines.{AreAgreeing};
ghost use Rattle.view.specs.Law.{Goes, Lasts, Tells};
ghost use Rattle.builtins.specs.Verdict.{verdict};
ghost use Rattle.builtins.specs.Led.{LeadsOver, MayBegin};
ghost use Rattle.builtins.specs.Recycles.{recycle_checks, recycle_told};

use crate::builtins_objects::asked::is_there;
use crate::builtins_objects::departing::recycle_now;
use crate::builtins_staged::calling::begins;
use crate::builtins_staged::objects::one;
use moo_task::deeds::Deeds;
use moo_task::effect::NativeEffect;
use moo_task::moo_machine::call::Call;
use moo_task::native::{Native, NativeName};
use moo_value::error::MooError;
use moo_value::text::Text;
use moo_value::value::Value;
use rules::permissions::act::Act;
use rules::permissions::may::may;
use std::alloc::{AllocError, Global};
use view::law::View;

/// `recycle`. `E_INVARG` where the object is not there, `E_PERM` where the programmer may not change it. The verb `recycle` of the
/// object is called, if there is one, and else the object goes at once.
pub fn recycle<V: View>(
    alloc: Global,
    view: &mut V,
    deeds: &mut Deeds,
    call: &Call,
    object: i32,
) -> Result<NativeEffect, AllocError>
    requires home { V.holds view.old (V.home view.old) }
    requires well_formed { AreAgreeing V.holds V.now view.old }
    ensures lasts { Lasts V.holds V.home V.anchor view.old view.new result }
    ensures left { IfOk result (λ e. Goes V.holds V.now view.old view.new
        (λ before after. LeadsOver (λ s c. recycle_row s c (object_of object ∷ [])) deeds.old before call.now e deeds.new after)) }
    ensures well_formed { OnOk result (AreAgreeing V.holds V.now view.new) }
{
    let refused = refusal(view, call.programmer, object)?;
    if let Some(error) = refused {
        return Ok(NativeEffect::Answers(Err(error)));
    }
    let effect = tell(alloc, view, deeds, call, object)?;
    Ok(effect)
}

// An object is told that it goes, or goes at once.
fn tell<V: View>(
    alloc: Global,
    view: &mut V,
    deeds: &mut Deeds,
    call: &Call,
    object: i32,
) -> Result<NativeEffect, AllocError>
    requires home { V.holds view.old (V.home view.old) }
    requires well_formed { AreAgreeing V.holds V.now view.old }
    ensures lasts { Lasts V.holds V.home V.anchor view.old view.new result }
    ensures left { IfOk result (λ e. Goes V.holds V.now view.old view.new
        (λ before after. LeadsOver (λ s c. recycle_told s c object) deeds.old before call.now e deeds.new after)) }
    ensures well_formed { OnOk result (AreAgreeing V.holds V.now view.new) }
{
    let begun = call_verb(alloc, view, call, object)?;
    if let Some(effect) = begun {
        return Ok(effect);
    }
    let gone = let_go(alloc, view, deeds, object)?;
    Ok(gone)
}

// Why an object may not go.
fn refusal<V: View>(
    view: &mut V,
    programmer: i32,
    object: i32,
) -> Result<Option<MooError>, AllocError>
    requires home { V.holds view.old (V.home view.old) }
    ensures lasts { Lasts V.holds V.home V.anchor view.old view.new result }
    ensures left { IfOk result (λ e. Tells V.holds V.now view.old view.new
        (λ w. verdict (recycle_checks w programmer object) ≡ option_map code_of e)) }
{
    let there = is_there(view, object)?;
    if !there {
        return Ok(Some(MooError::InvalidArgument));
    }
    let allowed = may(view, programmer, &Act::ChangeObject(object))?;
    if !allowed {
        return Ok(Some(MooError::PermissionDenied));
    }
    Ok(None)
}

// The call by which an object is told that it goes, if it has a verb for that.
fn call_verb<V: View>(
    alloc: Global,
    view: &mut V,
    call: &Call,
    object: i32,
) -> Result<Option<NativeEffect>, AllocError>
    requires home { V.holds view.old (V.home view.old) }
    requires well_formed { AreAgreeing V.holds V.now view.old }
    ensures lasts { Lasts V.holds V.home V.anchor view.old view.new result }
    ensures left { IfOk result (λ m. Tells V.holds V.now view.old view.new
        (λ w. MayBegin (stage recycle_native (object_of object ∷ [])) object (codes "recycle") no_data w call.now m)) }
{
    let arguments = one(alloc, object)?;
    let native = Native {
        name: NativeName::Recycle,
        stage: 1,
        arguments,
    };
    let word = Text::from_str(alloc, "recycle")?;
    let begun = begins(view, call, native, object, word, Vec::new(alloc))?;
    Ok(begun)
}

/// `recycle` goes on after the verb: the object goes with its link, if it is there, and the value is 0.
pub fn let_go<V: View>(
    alloc: Global,
    view: &mut V,
    deeds: &mut Deeds,
    object: i32,
) -> Result<NativeEffect, AllocError>
    requires home { V.holds view.old (V.home view.old) }
    requires well_formed { AreAgreeing V.holds V.now view.old }
    ensures lasts { Lasts V.holds V.home V.anchor view.old view.new result }
    ensures left { IfOk result (λ e. Goes V.holds V.now view.old view.new (λ before after.
        (t : ℕ) → answers_with (recycle_now_of (scene_of deeds.old before t) object) zero_value ≡ effect_of e (scene_of deeds.new after t))) }
    ensures well_formed { OnOk result (AreAgreeing V.holds V.now view.new) }
{
    recycle_now(alloc, view, deeds, object)?;
    Ok(NativeEffect::Answers(Ok(Value::integer(0))))
}
