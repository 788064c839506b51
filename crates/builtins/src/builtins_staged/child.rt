//! A new child of an object.
ghost use Rattle.std.specs.Prelude.{◌≡◌, [], Some, IfOk, OnOk};
ghost use Rattle.spec_world.specs.World.{World, object_at};
ghost use Rattle.spec_world.specs.Families.{created, heir_slots as heir_slots_of, slots_at};
ghost use Rattle.spec_world.specs.ObjectLaws.{IsPlace};
ghost use Rattle.rules.specs.Lines.{AreAgreeing};
ghost use Rattle.view.specs.Law.{Goes, Lasts, Tells};
ghost use Rattle.builtins.specs.Children.{child_header, child_with, put_heirs, IsNext};

use builtins_view::reparenting::along::inherited_slots;
use builtins_view::reparenting::heirs::heir_slot;
use moo_value::text::Text;
use rules::relatives::children::add_child;
use std::alloc::{AllocError, Global};
use view::header::Header;
use view::law::View;
use view::object::{Lists, Object};
use view::readers::{write_greatest, write_object};
use view::slot::Slot;
use view::slots::Slots;
use view::verb::Verbs;

/// A parent, or nobody, has a new child under the next number.
pub fn make_child<V: View>(
    alloc: Global,
    view: &mut V,
    parent: i32,
    owner: i32,
    number: i32,
) -> Result<(), AllocError>
    requires home { V.holds view.old (V.home view.old) }
    requires well_formed { AreAgreeing V.holds V.now view.old }
    requires place { (w : World) → V.holds view.old w → IsPlace (V.now view.old w) parent }
    requires next { (w : World) → V.holds view.old w → IsNext (V.now view.old w) (Some number) }
    ensures lasts { Lasts V.holds V.home V.anchor view.old view.new result }
    ensures left { OnOk result (Goes V.holds V.now view.old view.new (λ was is. is ≡ created was parent owner)) }
    ensures well_formed { OnOk result (AreAgreeing V.holds V.now view.new) }
{
    let slots = heir_slots(alloc, view, parent, owner)?;
    let child = child(alloc, parent, owner, slots)?;
    write_greatest(view, number)?;
    write_object(view, number, Some(child))?;
    add_child(alloc, view, parent, number)
}

// The slots of an object whose children inherit them, as those of a child.
fn heir_slots<V: View>(
    alloc: Global,
    view: &mut V,
    parent: i32,
    owner: i32,
) -> Result<Slots, AllocError>
    requires home { V.holds view.old (V.home view.old) }
    requires well_formed { AreAgreeing V.holds V.now view.old }
    ensures lasts { Lasts V.holds V.home V.anchor view.old view.new result }
    ensures left { IfOk result (λ ss. Tells V.holds V.now view.old view.new (λ w. ss ≡ heir_slots_of owner (slots_at (object_at w parent)))) }
{
    let inherited = inherited_slots(alloc, view, parent)?;
    let slots = heirs(alloc, inherited.as_slice(), owner)?;
    Ok(slots)
}

fn heirs(alloc: Global, inherited: &[(Text, Slot)], owner: i32) -> Result<Slots, AllocError>
    ensures { IfOk result (λ ss. ss ≡ put_heirs owner inherited.now []) }
{
    let mut slots = Slots::new(alloc);
    for entry in inherited {
        let slot = heir_slot(&entry.1, owner)?;
        slots.put(alloc, &entry.0, slot)?;
    }
    Ok(slots)
}

// A child with these slots, and with nothing else.
fn child(alloc: Global, parent: i32, owner: i32, slots: Slots) -> Result<Object, AllocError>
    ensures { IfOk result (λ x. x ≡ child_with parent owner slots) }
{
    let header = child_head(alloc, parent, owner)?;
    let lists = Lists {
        children: Vec::new(alloc),
        contents: Vec::new(alloc),
        defines: Vec::new(alloc),
    };
    let verbs = Verbs::new(alloc, Vec::new(alloc))?;
    Object::new(alloc, header, lists, slots, verbs)
}

fn child_head(alloc: Global, parent: i32, owner: i32) -> Result<Header, AllocError>
    ensures { IfOk result (λ h. h ≡ child_header parent owner) }
{
    Ok(Header {
        name: Text::from_str(alloc, "")?,
        owner,
        parent,
        location: -1,
        is_player: false,
        is_programmer: false,
        is_wizard: false,
        readable: false,
        writable: false,
        fertile: false,
    })
}
