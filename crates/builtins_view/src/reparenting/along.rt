//! What stands along a line of ancestors.
ghost use Rattle.std.specs.Prelude.{◌≡◌, ◌++◌, [], filter, not, IfOk, OnOk};
ghost use Rattle.spec_world.specs.Inherit.{slot_at};
ghost use Rattle.spec_world.specs.WellFormed.{lists};
ghost use Rattle.spec_world.specs.Questions.{defines_at};
ghost use Rattle.rules.specs.Lines.{AreAgreeing};
ghost use Rattle.view.specs.Law.{Lasts, Tells};
ghost use Rattle.builtins_view.specs.Along.{given, names_on, slots_of, with_found};
ghost use Rattle.builtins_view.specs.Heirs.{heritage, names_beside as names_beside_of, slots_beside as slots_beside_of};

use moo_value::text::Text;
use rules::inherit::line::ancestors;
use rules::relatives::lists::is_among;
use std::alloc::{AllocError, Global};
use view::law::View;
use view::readers::{read_defines, read_slot};
use view::slot::Slot;

/// The slots of an object that its children inherit, with the names under which they are defined: none where it is not there.
pub fn inherited_slots<V: View>(
    alloc: Global,
    view: &mut V,
    object: i32,
) -> Result<Vec<(Text, Slot)>, AllocError>
    requires home { V.holds view.old (V.home view.old) }
    requires well_formed { AreAgreeing V.holds V.now view.old }
    ensures lasts { Lasts V.holds V.home V.anchor view.old view.new result }
    ensures left { IfOk result (λ es. Tells V.holds V.now view.old view.new (λ w. es.items ≡ heritage w object)) }
{
    let line = ancestors(alloc, view, object)?;
    let names = names_along(alloc, view, line.as_slice())?;
    let slots = slots_named(alloc, view, object, names.as_slice())?;
    Ok(slots)
}

/// Those of them that children of another object do not inherit.
pub fn slots_beside<V: View>(
    alloc: Global,
    view: &mut V,
    object: i32,
    other: i32,
) -> Result<Vec<(Text, Slot)>, AllocError>
    requires home { V.holds view.old (V.home view.old) }
    requires well_formed { AreAgreeing V.holds V.now view.old }
    ensures lasts { Lasts V.holds V.home V.anchor view.old view.new result }
    ensures left { IfOk result (λ es. Tells V.holds V.now view.old view.new (λ w. es.items ≡ slots_beside_of w object other)) }
{
    let names = names_beside(alloc, view, object, other)?;
    let slots = slots_named(alloc, view, object, names.as_slice())?;
    Ok(slots)
}

/// The names of the properties that are inherited from one object, and not from another.
pub fn names_beside<V: View>(
    alloc: Global,
    view: &mut V,
    object: i32,
    other: i32,
) -> Result<Vec<Text>, AllocError>
    requires home { V.holds view.old (V.home view.old) }
    requires well_formed { AreAgreeing V.holds V.now view.old }
    ensures lasts { Lasts V.holds V.home V.anchor view.old view.new result }
    ensures left { IfOk result (λ ts. Tells V.holds V.now view.old view.new (λ w. ts.items ≡ names_beside_of w object other)) }
{
    let others = ancestors(alloc, view, other)?;
    let line = ancestors(alloc, view, object)?;
    let own = left_out(alloc, others.as_slice(), line.as_slice())?;
    let names = names_along(alloc, view, own.as_slice())?;
    Ok(names)
}

// Those objects that are not among others.
fn left_out(alloc: Global, others: &[i32], objects: &[i32]) -> Result<Vec<i32>, AllocError>
    ensures { IfOk result (λ os. os.items ≡ filter (λ o. not (lists others.now o)) objects.now) }
{
    let mut left = Vec::new(alloc);
    for object in objects {
        if !is_among(others, object) {
            left.push(*object)?;
        }
    }
    Ok(left)
}

// The names that these objects define.
fn names_along<V: View>(alloc: Global, view: &mut V, line: &[i32]) -> Result<Vec<Text>, AllocError>
    requires home { V.holds view.old (V.home view.old) }
    ensures lasts { Lasts V.holds V.home V.anchor view.old view.new result }
    ensures left { IfOk result (λ ts. Tells V.holds V.now view.old view.new (λ w. ts.items ≡ names_on w line.now)) }
{
    let mut names = Vec::new(alloc);
    for object in line {
        add_names(view, &mut names, *object)?;
    }
    Ok(names)
}

// The names that an object defines are put behind all.
fn add_names<V: View>(view: &mut V, names: &mut Vec<Text>, object: i32) -> Result<(), AllocError>
    ensures lasts { Lasts V.holds V.home V.anchor view.old view.new result }
    ensures left { OnOk result (Tells V.holds V.now view.old view.new (λ w. names.new.items ≡ names.old.items ++ given (defines_at w object))) }
{
    let defined = read_defines(view, object)?;
    if let Some(defined) = defined {
        push_all(names, defined.as_slice())?;
    }
    Ok(())
}

fn push_all(names: &mut Vec<Text>, more: &[Text]) -> Result<(), AllocError>
    ensures { OnOk result (names.new.items ≡ names.old.items ++ more.now) }
{
    for name in more {
        names.push(name.clone()?)?;
    }
    Ok(())
}

// The slots of these names on an object, where it has them.
fn slots_named<V: View>(
    alloc: Global,
    view: &mut V,
    object: i32,
    names: &[Text],
) -> Result<Vec<(Text, Slot)>, AllocError>
    requires home { V.holds view.old (V.home view.old) }
    ensures lasts { Lasts V.holds V.home V.anchor view.old view.new result }
    ensures left { IfOk result (λ es. Tells V.holds V.now view.old view.new (λ w. es.items ≡ slots_of w object names.now)) }
{
    let mut slots = Vec::new(alloc);
    for name in names {
        add_slot(view, &mut slots, object, name)?;
    }
    Ok(slots)
}

// The slot of a name on an object, if it has one, is put behind all.
fn add_slot<V: View>(
    view: &mut V,
    slots: &mut Vec<(Text, Slot)>,
    object: i32,
    name: &Text,
) -> Result<(), AllocError>
    ensures lasts { Lasts V.holds V.home V.anchor view.old view.new result }
    ensures left { OnOk result (Tells V.holds V.now view.old view.new
        (λ w. slots.new.items ≡ slots.old.items ++ with_found name.now (slot_at w object name.now) [])) }
{
    let slot = read_slot(view, object, name)?;
    if let Some(slot) = slot {
        slots.push((name.clone()?, slot))?;
    }
    Ok(())
}
