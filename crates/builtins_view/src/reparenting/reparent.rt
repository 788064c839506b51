//! Another parent for an object.
ghost use Rattle.std.specs.Prelude.{◌≡◌, OnOk};
ghost use Rattle.spec_world.specs.World.{object_at};
ghost use Rattle.spec_world.specs.Families.{parent_of, with_heirs, reparented};
ghost use Rattle.rules.specs.Lines.{AreAgreeing};
ghost use Rattle.rules.specs.Below.{IsFamily};
ghost use Rattle.view.specs.Law.{Goes, Lasts};

use crate::reparenting::along::{names_beside, slots_beside};
use crate::reparenting::heirs::{inherit_each, lose_each};
use rules::relatives::children::put_below;
use std::alloc::{AllocError, Global};
use view::law::View;

/// An object, which with all below it is this family, goes over from its parent to another one.
pub fn reparent<V: View>(
    alloc: Global,
    view: &mut V,
    object: i32,
    family: &[i32],
    before: i32,
    parent: i32,
) -> Result<(), AllocError>
    requires home { V.holds view.old (V.home view.old) }
    requires well_formed { AreAgreeing V.holds V.now view.old }
    ensures lasts { Lasts V.holds V.home V.anchor view.old view.new result }
    ensures left { OnOk result (Goes V.holds V.now view.old view.new (λ was is.
        IsFamily was object family.now → parent_of (object_at was object) ≡ before → is ≡ reparented was object parent)) }
{
    change_heirs(alloc, view, object, family, before, parent)?;
    put_below(alloc, view, object, before, parent)
}

// They lose what is inherited from the one parent alone, and inherit what they have not from the other.
fn change_heirs<V: View>(
    alloc: Global,
    view: &mut V,
    object: i32,
    family: &[i32],
    before: i32,
    parent: i32,
) -> Result<(), AllocError>
    requires home { V.holds view.old (V.home view.old) }
    requires well_formed { AreAgreeing V.holds V.now view.old }
    ensures lasts { Lasts V.holds V.home V.anchor view.old view.new result }
    ensures left { OnOk result (Goes V.holds V.now view.old view.new (λ was is.
        IsFamily was object family.now → parent_of (object_at was object) ≡ before → is ≡ with_heirs was object parent)) }
{
    let _named = object;
    let lost = names_beside(alloc, view, before, parent)?;
    let slots = slots_beside(alloc, view, parent, before)?;
    lose_each(view, family, lost.as_slice())?;
    inherit_each(view, family, slots.as_slice())
}
