//! Slots that objects lose.
ghost use Rattle.std.specs.Prelude.{◌≡◌, None, IfOk, OnOk};
ghost use Rattle.spec_world.specs.Families.{change_object};
ghost use Rattle.spec_world.specs.Questions.{new_slot};
ghost use Rattle.view.specs.Meanings.{part_of};
ghost use Rattle.view.specs.Law.{Goes, Lasts};
ghost use Rattle.rules.specs.InTurn.{in_turn};
ghost use Rattle.rules.specs.Losing.{losing};

use moo_value::text::Text;
use std::alloc::AllocError;
use view::law::View;
use view::part::Part;
use view::readers::write_part;

/// Each object loses its slot of a property.
pub fn lose_slots<V: View>(view: &mut V, objects: &[i32], name: &Text) -> Result<(), AllocError>
    requires home { V.holds view.old (V.home view.old) }
    ensures lasts { Lasts V.holds V.home V.anchor view.old view.new result }
    ensures left { OnOk result (Goes V.holds V.now view.old view.new (λ before after. after ≡ in_turn (losing name.now) objects.now before)) }
{
    for object in objects {
        lose_slot(view, *object, name)?;
    }
    Ok(())
}

fn lose_slot<V: View>(view: &mut V, object: i32, name: &Text) -> Result<(), AllocError>
    ensures lasts { Lasts V.holds V.home V.anchor view.old view.new result }
    ensures left { OnOk result (Goes V.holds V.now view.old view.new (λ before after. after ≡ change_object before object (losing name.now object))) }
{
    let part = no_slot(name)?;
    write_part(view, object, part)
}

fn no_slot(name: &Text) -> Result<Part, AllocError>
    ensures { IfOk result (λ p. part_of p ≡ new_slot name.now None) }
{
    Ok(Part::Slot(name.clone()?, None))
}
