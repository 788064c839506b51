//! Objects that go with their links (Programmer's Manual, `recycle()`).
ghost use Rattle.std.specs.Prelude.{◌≡◌, ℕ, OnOk};
ghost use Rattle.spec_moo.specs.Natives.Objects.{recycle_now as recycle_now_of};
ghost use Rattle.moo_task.specs.Deeds.{scene_of};
ghost use Rattle.rules.specs.Lines.{AreAgreeing};
ghost use Rattle.view.specs.Law.{Goes, Lasts};

use crate::builtins_objects::asked::is_there;
use crate::builtins_objects::recycling::recycle_object;
use moo_task::deeds::Deeds;
use std::alloc::{AllocError, Global};
use step_deeds::links::close_connection_of;
use view::law::View;

/// An object goes, if it is there, once its verb `recycle` has come to an end or where it has none: its link is closed, its children
/// go to its parent, and its contents to no place.
pub fn recycle_now<V: View>(
    alloc: Global,
    view: &mut V,
    deeds: &mut Deeds,
    object: i32,
) -> Result<(), AllocError>
    requires home { V.holds view.old (V.home view.old) }
    requires well_formed { AreAgreeing V.holds V.now view.old }
    ensures lasts { Lasts V.holds V.home V.anchor view.old view.new result }
    ensures left { OnOk result (Goes V.holds V.now view.old view.new
        (λ before after. (t : ℕ) → scene_of deeds.new after t ≡ recycle_now_of (scene_of deeds.old before t) object)) }
    ensures well_formed { OnOk result (AreAgreeing V.holds V.now view.new) }
{
    depart(alloc, view, deeds, object)
}

fn depart<V: View>(
    alloc: Global,
    view: &mut V,
    deeds: &mut Deeds,
    object: i32,
) -> Result<(), AllocError>
    requires home { V.holds view.old (V.home view.old) }
    requires well_formed { AreAgreeing V.holds V.now view.old }
    ensures lasts { Lasts V.holds V.home V.anchor view.old view.new result }
    ensures left { OnOk result (Goes V.holds V.now view.old view.new
        (λ before after. (t : ℕ) → scene_of deeds.new after t ≡ recycle_now_of (scene_of deeds.old before t) object)) }
{
    let there = is_there(view, object)?;
    if !there {
        return Ok(());
    }
    close_connection_of(view, deeds, object)?;
    recycle_object(alloc, view, object)
}
