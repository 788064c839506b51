//! Values of properties.
ghost use Rattle.std.specs.Prelude.{◌≡◌, drop, IfOk};
ghost use Rattle.spec_world.specs.World.{World};
ghost use Rattle.spec_world.specs.Inherit.{ancestors, slot_at, first_value, property_value};
ghost use Rattle.view.specs.Law.{Lasts, Tells};
ghost use Rattle.rules.specs.Lines.{AreAgreeing, IsOwn};

use crate::inherit::line::parent;
use moo_value::text::Text;
use moo_value::value::Value;
use std::alloc::AllocError;
use view::law::View;
use view::readers::read_slot;
use view::slot::Slot;

/// The value of a property of an object: that of the first slot along the ancestors that is not clear. None where there is no
/// such property. Case is ignored.
pub fn find_property<V: View>(
    view: &mut V,
    object: i32,
    name: &Text,
) -> Result<Option<Value>, AllocError>
    requires home { V.holds view.old (V.home view.old) }
    requires well_formed { AreAgreeing V.holds V.now view.old }
    ensures lasts { Lasts V.holds V.home V.anchor view.old view.new result }
    ensures left { IfOk result (λ v. Tells V.holds V.now view.old view.new (λ w. property_value w object name.now ≡ v)) }
{
    let slot = read_slot(view, object, name)?;
    value_of(view, object, name, slot)
}

/// The value of a property whose slot on the object is known.
#[inline(always)]
pub fn value_of<V: View>(
    view: &mut V,
    object: i32,
    name: &Text,
    slot: Option<Slot>,
) -> Result<Option<Value>, AllocError>
    requires home { V.holds view.old (V.home view.old) }
    requires well_formed { AreAgreeing V.holds V.now view.old }
    requires slot { (w : World) → V.holds view.old w → slot_at (V.now view.old w) object name.now ≡ slot }
    ensures lasts { Lasts V.holds V.home V.anchor view.old view.new result }
    ensures left { IfOk result (λ v. Tells V.holds V.now view.old view.new (λ w. property_value w object name.now ≡ v)) }
{
    let own = own_value(slot)?;
    match own {
        Own::Settled(value) => Ok(value),
        Own::Clear => inherited(view, object, name),
    }
}

// The value that the ancestors above an object give.
#[inline(never)]
pub(crate) fn inherited<V: View>(
    view: &mut V,
    object: i32,
    name: &Text,
) -> Result<Option<Value>, AllocError>
    requires home { V.holds view.old (V.home view.old) }
    requires well_formed { AreAgreeing V.holds V.now view.old }
    ensures lasts { Lasts V.holds V.home V.anchor view.old view.new result }
    ensures left { IfOk result (λ v. Tells V.holds V.now view.old view.new (λ w. first_value w (drop 1 (ancestors w object)) name.now ≡ v)) }
{
    let mut next = parent(view, object)?;
    while let Some(at) = next {
        let slot = read_slot(view, at, name)?;
        let own = own_value(slot)?;
        match own {
            Own::Settled(value) => return Ok(value),
            Own::Clear => next = parent(view, at)?,
        }
    }
    Ok(None)
}

// What a slot says of its property's value.
#[derive(Drop)]
enum Own {
    // All there is to say: the value, or that there is no such property.
    Settled(Option<Value>),
    // That it is inherited.
    Clear,
}

fn own_value(slot: Option<Slot>) -> Result<Own, AllocError>
    ensures { IfOk result (λ own. IsOwn slot own) }
{
    let Some(slot) = slot else {
        return Ok(Own::Settled(None));
    };
    let content = slot.content.into_value()?;
    match content {
        Some(value) => Ok(Own::Settled(Some(value))),
        None => Ok(Own::Clear),
    }
}
