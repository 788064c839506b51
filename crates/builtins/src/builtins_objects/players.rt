//! Objects that are players or are none any more (Programmer's Manual, `set_player_flag()`).
ghost use Rattle.std.specs.Prelude.{◌≡◌, ℕ, [], ◌∷◌, option_map, IfOk, OnOk};
ghost use Rattle.spec_value.specs.Datum.{object as object_of};
ghost use Rattle.spec_world.specs.Families.{change_object};
ghost use Rattle.spec_moo.specs.Natives.Objects.{set_player_flag_row};
ghost use Rattle.moo_value.specs.Errors.{code_of};
ghost use Rattle.moo_task.specs.Deeds.{scene_of};
ghost use Rattle.moo_task.specs.declared.effect.NativeEffect.TheVariants.{Answers};
ghost use Rattle.rules.specs.Lines.{AreAgreeing};
ghost use Rattle.view.specs.Law.{Goes, Lasts, Tells};
ghost use Rattle.builtins.specs.BuiltinsLinksActing.{Acts};
ghost use Rattle.builtins.specs.Flags.{flag_checks, flagged};
ghost use Rattle.builtins.specs.Verdict.{verdict};

use crate::builtins_objects::asked::is_there;
use moo_task::deeds::Deeds;
use moo_value::answer::Answer;
use moo_value::error::MooError;
use moo_value::value::Value;
use rules::permissions::act::Act;
use rules::permissions::may::may;
use std::alloc::AllocError;
use step_deeds::links::close_connection_of;
use view::header::Header;
use view::law::View;
use view::part::Part;
use view::readers::{read_header, write_part};

/// `set_player_flag`: an object is a player where the value is true, and else it is none any more and its link is closed.
/// `E_INVARG` where the object is not there, `E_PERM` where the programmer is no wizard.
pub fn set_player_flag<V: View>(
    view: &mut V,
    deeds: &mut Deeds,
    programmer: i32,
    object: i32,
    value: &Value,
) -> Result<Answer, AllocError>
    requires home { V.holds view.old (V.home view.old) }
    requires well_formed { AreAgreeing V.holds V.now view.old }
    ensures lasts { Lasts V.holds V.home V.anchor view.old view.new result }
    ensures left { IfOk result (λ a. Goes V.holds V.now view.old view.new
        (λ before after. Acts (λ s c. set_player_flag_row s c (object_of object ∷ value.now ∷ [])) deeds.old before programmer (Answers a) deeds.new after)) }
    ensures well_formed { OnOk result (AreAgreeing V.holds V.now view.new) }
{
    change_flag(view, deeds, programmer, object, value)
}

fn change_flag<V: View>(
    view: &mut V,
    deeds: &mut Deeds,
    programmer: i32,
    object: i32,
    value: &Value,
) -> Result<Answer, AllocError>
    requires home { V.holds view.old (V.home view.old) }
    requires well_formed { AreAgreeing V.holds V.now view.old }
    ensures lasts { Lasts V.holds V.home V.anchor view.old view.new result }
    ensures left { IfOk result (λ a. Goes V.holds V.now view.old view.new
        (λ before after. Acts (λ s c. set_player_flag_row s c (object_of object ∷ value.now ∷ [])) deeds.old before programmer (Answers a) deeds.new after)) }
{
    let refused = refusal(view, programmer, object)?;
    if let Some(error) = refused {
        return Ok(Err(error));
    }
    let flag = value.is_true();
    give_flag(view, deeds, object, flag)?;
    Ok(Ok(Value::integer(0)))
}

// Why an object may not become a player or be none any more.
fn refusal<V: View>(
    view: &mut V,
    programmer: i32,
    object: i32,
) -> Result<Option<MooError>, AllocError>
    requires home { V.holds view.old (V.home view.old) }
    ensures lasts { Lasts V.holds V.home V.anchor view.old view.new result }
    ensures left { IfOk result (λ e. Tells V.holds V.now view.old view.new (λ w. verdict (flag_checks w programmer object) ≡ option_map code_of e)) }
{
    let there = is_there(view, object)?;
    if !there {
        return Ok(Some(MooError::InvalidArgument));
    }
    let allowed = may(view, programmer, &Act::Administer)?;
    if !allowed {
        return Ok(Some(MooError::PermissionDenied));
    }
    Ok(None)
}

// An object is a player, or is none any more and its link is closed.
fn give_flag<V: View>(
    view: &mut V,
    deeds: &mut Deeds,
    object: i32,
    flag: bool,
) -> Result<(), AllocError>
    requires home { V.holds view.old (V.home view.old) }
    requires well_formed { AreAgreeing V.holds V.now view.old }
    ensures lasts { Lasts V.holds V.home V.anchor view.old view.new result }
    ensures left { OnOk result (Goes V.holds V.now view.old view.new
        (λ before after. (t : ℕ) → scene_of deeds.new after t ≡ flagged (scene_of deeds.old before t) object flag)) }
{
    if flag {
        return put_flag(view, object, true);
    }
    close_connection_of(view, deeds, object)?;
    put_flag(view, object, false)
}

fn put_flag<V: View>(view: &mut V, object: i32, flag: bool) -> Result<(), AllocError>
    ensures lasts { Lasts V.holds V.home V.anchor view.old view.new result }
    ensures left { OnOk result (Goes V.holds V.now view.old view.new
        (λ was is. is ≡ change_object was object (λ x. record x { header = record (x.header) { is_player = flag } }))) }
{
    let Some(header) = read_header(view, object)? else {
        return Ok(());
    };
    let flagged = with_flag(header, flag);
    write_part(view, object, Part::Header(flagged))
}

fn with_flag(header: Header, flag: bool) -> Header
    ensures { result ≡ record header { is_player = flag } }
{
    Header {
        is_player: flag,
        ..header
    }
}
