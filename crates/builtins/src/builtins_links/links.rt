//! Links of players.
ghost use Rattle.std.specs.Prelude.{◌≡◌, ℕ, [], ◌∷◌, IfOk, OnOk};
ghost use Rattle.spec_value.specs.Datum.{object as object_of};
ghost use Rattle.spec_world.specs.World.{World, reading_on};
ghost use Rattle.spec_moo.specs.Natives.Tasks.{boot_player_row, read_row, waits_with_id};
ghost use Rattle.spec_moo.specs.NativeEffect.{waits};
ghost use Rattle.moo_task.specs.Deeds.{scene_of};
ghost use Rattle.moo_task.specs.Effects.{effect_of};
ghost use Rattle.moo_task.specs.declared.effect.NativeEffect.TheVariants.{Answers};
ghost use Rattle.view.specs.Law.{Goes, Lasts, Tells};
ghost use Rattle.rules.specs.Lines.{AreAgreeing};
ghost use Rattle.builtins.specs.BuiltinsLinksActing.{Acts, with_player};

use crate::builtins_links::acting::refusal;
use builtins_view::builtins_task::ids::own_id;
use moo_task::deeds::Deeds;
use moo_task::effect::{NativeEffect, Waiting};
use moo_value::answer::Answer;
use moo_value::error::MooError;
use moo_value::value::Value;
use rules::permissions::act::Act;
use rules::permissions::may::may;
use std::alloc::AllocError;
use step_deeds::links::{close_connection_of, connection, reader};
use view::law::View;

/// `boot_player`: the link of an object is closed, if it has one. `E_INVARG` where the object is not there, `E_PERM` where the
/// programmer may not act as it.
pub fn boot_player<V: View>(
    view: &mut V,
    deeds: &mut Deeds,
    programmer: i32,
    object: i32,
) -> Result<Answer, AllocError>
    requires home { V.holds view.old (V.home view.old) }
    requires well_formed { AreAgreeing V.holds V.now view.old }
    ensures lasts { Lasts V.holds V.home V.anchor view.old view.new result }
    ensures left { IfOk result (λ a. Goes V.holds V.now view.old view.new
        (λ before after. Acts (λ s c. boot_player_row s c (object_of object ∷ [])) deeds.old before programmer (Answers a) deeds.new after)) }
    ensures well_formed { OnOk result (AreAgreeing V.holds V.now view.new) }
{
    let refused = refusal(view, programmer, object)?;
    if let Some(error) = refused {
        return Ok(Err(error));
    }
    close_connection_of(view, deeds, object)?;
    Ok(Ok(Value::integer(0)))
}

/// `read`: the task waits for a line of its player. `E_PERM` where the programmer may not act as that player, `E_INVARG` where the
/// player has no link or another task reads on it, `E_QUOTA` where the task has no id and the step has none left.
pub fn read<V: View>(
    view: &mut V,
    deeds: &mut Deeds,
    player: i32,
    programmer: i32,
) -> Result<NativeEffect, AllocError>
    requires home { V.holds view.old (V.home view.old) }
    ensures lasts { Lasts V.holds V.home V.anchor view.old view.new result }
    ensures left { IfOk result (λ e. Tells V.holds V.now view.old view.new
        (λ w. Acts (λ s c. read_row s (with_player c player) []) deeds.old w programmer e deeds.new w)) }
{
    let allowed = may(view, programmer, &Act::ActAs(player))?;
    if !allowed {
        return Ok(NativeEffect::Answers(Err(MooError::PermissionDenied)));
    }
    let Some(link) = connection(view, player)? else {
        return Ok(NativeEffect::Answers(Err(MooError::InvalidArgument)));
    };
    let other = reader(view, link)?;
    if other.is_some() {
        return Ok(NativeEffect::Answers(Err(MooError::InvalidArgument)));
    }
    let effect = wait_for_line(deeds, link)?;
    Ok(effect)
}

// The task waits for a line of a connection, if it has an id or the step has one left.
fn wait_for_line(deeds: &mut Deeds, link: i32) -> Result<NativeEffect, AllocError>
    ensures { IfOk result (λ e. (w : World) (t : ℕ) →
        waits_with_id (scene_of deeds.old w t) (λ r. waits r.1 (reading_on link)) ≡ effect_of e (scene_of deeds.new w t)) }
{
    match own_id(deeds)? {
        Some(_) => Ok(NativeEffect::Waits(Waiting::ReadingOn(link))),
        None => Ok(NativeEffect::Answers(Err(MooError::LimitExceeded))),
    }
}
