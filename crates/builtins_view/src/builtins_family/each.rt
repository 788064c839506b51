//! Objects that are changed one after the other.
ghost use Rattle.std.specs.Prelude.{◌≡◌, IfOk, OnOk};
ghost use Rattle.spec_world.specs.Families.{change_object};
ghost use Rattle.view.specs.Law.{Goes, Lasts};
ghost use Rattle.rules.specs.InTurn.{in_turn};
ghost use Rattle.builtins_view.specs.Slots.{getting, slot_for as slot_for_of};

use crate::builtins_world::properties::put_slot;
use moo_value::text::Text;
use slot_content::content::Content;
use std::alloc::AllocError;
use view::law::View;
use view::readers::read_header;
use view::slot::Slot;

/// Each object gets a slot of a property: the one that defines it this slot, another one an heir's.
pub fn give_slots<V: View>(
    view: &mut V,
    objects: &[i32],
    definer: i32,
    name: &Text,
    slot: &Slot,
) -> Result<(), AllocError>
    requires home { V.holds view.old (V.home view.old) }
    ensures lasts { Lasts V.holds V.home V.anchor view.old view.new result }
    ensures left { OnOk result (Goes V.holds V.now view.old view.new (λ before after. after ≡ in_turn (getting definer name.now slot.now) objects.now before)) }
{
    for object in objects {
        give_slot(view, *object, definer, name, slot)?;
    }
    Ok(())
}

fn give_slot<V: View>(
    view: &mut V,
    object: i32,
    definer: i32,
    name: &Text,
    slot: &Slot,
) -> Result<(), AllocError>
    ensures lasts { Lasts V.holds V.home V.anchor view.old view.new result }
    ensures left { OnOk result (Goes V.holds V.now view.old view.new
        (λ before after. after ≡ change_object before object (getting definer name.now slot.now object))) }
{
    let Some(header) = read_header(view, object)? else {
        return Ok(());
    };
    let slot = slot_for(definer, slot, object, header.owner)?;
    put_slot(view, object, name, slot)
}

// The definer's slot, or an heir's: clear, with the heir's owner if the bit c is set.
fn slot_for(definer: i32, slot: &Slot, object: i32, owner: i32) -> Result<Slot, AllocError>
    ensures { IfOk result (λ s. s ≡ slot_for_of definer slot.now object owner) }
{
    if object == definer {
        return slot.clone();
    }
    Ok(Slot {
        content: Content::clear(),
        owner: if slot.changeable { owner } else { slot.owner },
        readable: slot.readable,
        writable: slot.writable,
        changeable: slot.changeable,
    })
}
