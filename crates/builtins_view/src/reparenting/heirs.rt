//! What several objects lose and inherit.
ghost use Rattle.std.specs.Prelude.{◌≡◌, IfOk, OnOk};
ghost use Rattle.spec_world.specs.Families.{heir_slot as heir_slot_of};
ghost use Rattle.spec_world.specs.Inherit.{slot_at};
ghost use Rattle.view.specs.Law.{Goes, Lasts};
ghost use Rattle.builtins_view.specs.Heirs.{inherit_down, inherit_each as inherit_each_of, inherited, lose_each as lose_each_of};

use crate::builtins_world::properties::put_slot;
use moo_value::text::Text;
use rules::family::losing::lose_slots;
use slot_content::content::Content;
use std::alloc::AllocError;
use view::law::View;
use view::readers::{read_header, read_slot};
use view::slot::Slot;

/// Each object loses its slots of these names.
pub fn lose_each<V: View>(view: &mut V, objects: &[i32], names: &[Text]) -> Result<(), AllocError>
    requires home { V.holds view.old (V.home view.old) }
    ensures lasts { Lasts V.holds V.home V.anchor view.old view.new result }
    ensures left { OnOk result (Goes V.holds V.now view.old view.new (λ was is. is ≡ lose_each_of names.now objects.now was)) }
{
    for name in names {
        lose_slots(view, objects, name)?;
    }
    Ok(())
}

/// Each object inherits these slots, but for those of names that it has.
pub fn inherit_each<V: View>(
    view: &mut V,
    objects: &[i32],
    slots: &[(Text, Slot)],
) -> Result<(), AllocError>
    requires home { V.holds view.old (V.home view.old) }
    ensures lasts { Lasts V.holds V.home V.anchor view.old view.new result }
    ensures left { OnOk result (Goes V.holds V.now view.old view.new (λ was is. is ≡ inherit_each_of slots.now objects.now was)) }
{
    for entry in slots {
        inherit_slots(view, objects, &entry.0, &entry.1)?;
    }
    Ok(())
}

fn inherit_slots<V: View>(
    view: &mut V,
    objects: &[i32],
    name: &Text,
    slot: &Slot,
) -> Result<(), AllocError>
    requires home { V.holds view.old (V.home view.old) }
    ensures lasts { Lasts V.holds V.home V.anchor view.old view.new result }
    ensures left { OnOk result (Goes V.holds V.now view.old view.new (λ was is. is ≡ inherit_down name.now slot.now objects.now was)) }
{
    for object in objects {
        inherit_slot(view, *object, name, slot)?;
    }
    Ok(())
}

// An object inherits a slot, unless it has one of that name.
fn inherit_slot<V: View>(
    view: &mut V,
    object: i32,
    name: &Text,
    slot: &Slot,
) -> Result<(), AllocError>
    ensures lasts { Lasts V.holds V.home V.anchor view.old view.new result }
    ensures left { OnOk result (Goes V.holds V.now view.old view.new
        (λ was is. is ≡ inherited was object name.now slot.now (slot_at was object name.now))) }
{
    let own = read_slot(view, object, name)?;
    if own.is_some() {
        return Ok(());
    }
    let Some(header) = read_header(view, object)? else {
        return Ok(());
    };
    let slot = heir_slot(slot, header.owner)?;
    put_slot(view, object, name, slot)
}

/// The slot of an heir: clear, with the heir's owner if the bit c is set.
pub fn heir_slot(slot: &Slot, owner: i32) -> Result<Slot, AllocError>
    ensures { IfOk result (λ s. s ≡ heir_slot_of owner slot.now) }
{
    Ok(Slot {
        content: Content::clear(),
        owner: if slot.changeable { owner } else { slot.owner },
        readable: slot.readable,
        writable: slot.writable,
        changeable: slot.changeable,
    })
}
