//! The items of scattering assignments.
ghost use Rattle.std.specs.Prelude.{◌≡◌, ◌∷◌, ◌++◌, [], length, map, true, IfOk, OnOk, Some};
ghost use Rattle.std.specs.Arc.{arc_value};
ghost use Rattle.moo_code.specs.Instruction.{placed};
ghost use Rattle.moo_code.specs.Layout.{slots_of, default_parts};
ghost use Rattle.moo_tree.specs.ExpressionView.{items_of};
ghost use Rattle.moo_program.specs.Assembling.{place_of};
ghost use Rattle.moo_program.specs.Meaning.{slot_meant, part_meant};
ghost use Rattle.moo_program.specs.Names.{known};
ghost use Rattle.moo_program.specs.Opens.{open_of};
ghost use Rattle.moo_program.specs.Scattering.{Agrees, plan_of, are_in};

use crate::counts::counted;
use crate::emit::{narrow, place, slot};
use crate::instruction::{Part, Scatter, Slot};
use crate::moo_bytecode::around::next;
use crate::names::Names;
use crate::open::Open;
use crate::within::are_within;
use moo_tree::expression::Item;
use std::alloc::{AllocError, Global};
use std::sync::Arc;

/// The items of the scattering assignment that is under way, and where its defaults stand; shared by its instructions.
pub fn shared(
    alloc: Global,
    names: &Names<'_>,
    here: &mut Open,
    items: &[Item],
) -> Result<Arc<Scatter>, AllocError>
    requires { Agrees (plan_of (known names.now) here.old) (Some (slots_of (items_of items.now), placed (place_of (open_of here.old)) (default_parts 1 (items_of items.now)), true)) }
    ensures items { IfOk result (λ s. map (slot_meant (known names.now)) (arc_value s).items.items ≡ slots_of (items_of items.now)) }
    ensures defaults { IfOk result (λ s. map part_meant (arc_value s).defaults.items ≡ placed (place_of (open_of here.old)) (default_parts 1 (items_of items.now))) }
    ensures within { IfOk result (λ s. are_in (length (known names.now)) (arc_value s).items.items ≡ true) }
    ensures known { OnOk result (plan_of (known names.now) here.new ≡ Some (slots_of (items_of items.now), placed (place_of (open_of here.old)) (default_parts 1 (items_of items.now)), true)) }
    ensures open { OnOk result (open_of here.new ≡ open_of here.old) }
{
    if let Some(before) = &here.scatter {
        return before.clone();
    }
    let scatter = Arc::new(alloc, within(alloc, names, here, items)?)?;
    here.scatter = Some(scatter.clone()?);
    Ok(scatter)
}

// The items, whose slots are those of names.
fn within(
    alloc: Global,
    names: &Names<'_>,
    here: &Open,
    items: &[Item],
) -> Result<Scatter, AllocError>
    ensures items { IfOk result (λ s. map (slot_meant (known names.now)) s.items.items ≡ slots_of (items_of items.now)) }
    ensures defaults { IfOk result (λ s. map part_meant s.defaults.items ≡ placed (place_of (open_of here.now)) (default_parts 1 (items_of items.now))) }
    ensures within { IfOk result (λ s. are_in (length (known names.now)) s.items.items ≡ true) }
{
    let scatter = scatter(alloc, names, here, items)?;
    if are_within(scatter.items.as_slice(), names.count()) {
        Ok(scatter)
    } else {
        Err(AllocError)
    }
}

// The items of a scattering assignment, and where its defaults stand.
fn scatter(
    alloc: Global,
    names: &Names<'_>,
    here: &Open,
    items: &[Item],
) -> Result<Scatter, AllocError>
    ensures items { IfOk result (λ s. map (slot_meant (known names.now)) s.items.items ≡ slots_of (items_of items.now)) }
    ensures defaults { IfOk result (λ s. map part_meant s.defaults.items ≡ placed (place_of (open_of here.now)) (default_parts 1 (items_of items.now))) }
{
    let mut slots = Vec::new(alloc);
    let mut defaults = Vec::new(alloc);
    for i in 0..items.len() {
        let item = &items[i];
        put_slot(&mut slots, names, item)?;
        put_default(&mut defaults, here, next(i)?, item)?;
    }
    counted(alloc, slots, defaults)
}

// The variable of an item.
fn put_slot(slots: &mut Vec<Slot>, names: &Names<'_>, item: &Item) -> Result<(), AllocError>
    ensures { OnOk result (map (slot_meant (known names.now)) slots.new.items ≡ map (slot_meant (known names.now)) slots.old.items ++ slots_of (items_of (item.now ∷ []))) }
{
    let slot = match item {
        Item::Required(name) => Slot::Required(slot(names, name)?),
        Item::Optional(name) => Slot::Optional(slot(names, name)?),
        Item::Rest(name) => Slot::Rest(slot(names, name)?),
        Item::Default(name, _) => Slot::Default(slot(names, name)?),
    };
    slots.push(slot)?;
    Ok(())
}

// The default of an item that is the part with this number, if it has one.
fn put_default(
    defaults: &mut Vec<Part>,
    here: &Open,
    number: usize,
    item: &Item,
) -> Result<(), AllocError>
    ensures { OnOk result (map part_meant defaults.new.items ≡ map part_meant defaults.old.items ++ placed (place_of (open_of here.now)) (default_parts number (items_of (item.now ∷ [])))) }
{
    if let Item::Default(_, _) = item {
        let part = Part {
            number: narrow(number)?,
            place: place(here, number)?,
        };
        defaults.push(part)?;
    }
    Ok(())
}
