//! Properties, and their slots (Programmer's Manual, "Operations on Properties").
ghost use Rattle.std.specs.Prelude.{◌≡◌, [], ◌∷◌, map, option_map, is_none, None, Some, IfOk, OnOk};
ghost use Rattle.spec_value.specs.Datum.{object as object_of, text as text_value, list as list_of, item, no_data, fold_case};
ghost use Rattle.spec_value.specs.Answer.{truth};
ghost use Rattle.spec_world.specs.World.{object_at};
ghost use Rattle.spec_world.specs.Inherit.{with_slot};
ghost use Rattle.spec_world.specs.Questions.{new_slot};
ghost use Rattle.spec_world.specs.WellFormed.{has_name as has_name_of};
ghost use Rattle.spec_moo.specs.Natives.Properties.{properties_row, property_info_row, is_clear_property_row, clear_property_row, slot_bits as slot_bits_of, defines_it};
ghost use Rattle.moo_value.specs.Answers.{answer_of};
ghost use Rattle.moo_value.specs.Errors.{code_of};
ghost use Rattle.view.specs.Meanings.{part_of};
ghost use Rattle.rules.specs.Lines.{AreAgreeing};
ghost use Rattle.view.specs.Law.{Goes, Lasts, Tells};
ghost use Rattle.builtins_view.specs.Missing.{missing_error};
ghost use Rattle.builtins_view.specs.Said.{Does, Says};

use crate::builtins_world::values::texts_value;
use moo_value::answer::Answer;
use moo_value::error::MooError;
use moo_value::text::Text;
use moo_value::value::Value;
use rules::permissions::act::Act;
use rules::permissions::may::may;
use slot_content::content::Content;
use std::alloc::{AllocError, Global};
use view::law::View;
use view::part::Part;
use view::readers::{read_defines, read_header, read_slot, write_part};
use view::slot::Slot;
use view::verb_names::is_same;

/// `properties`: the names that an object defines, in the order of definition. `E_INVARG` where it is not there, `E_PERM` where the
/// programmer may not list them.
pub fn properties<V: View>(
    alloc: Global,
    view: &mut V,
    programmer: i32,
    object: i32,
) -> Result<Answer, AllocError>
    requires home { V.holds view.old (V.home view.old) }
    ensures lasts { Lasts V.holds V.home V.anchor view.old view.new result }
    ensures left { IfOk result (λ a. Tells V.holds V.now view.old view.new
        (λ w. Says (λ s c. properties_row s c (object_of object ∷ [])) w programmer (answer_of a))) }
{
    let Some(names) = read_defines(view, object)? else {
        return Ok(Err(MooError::InvalidArgument));
    };
    if !may(view, programmer, &Act::ListMembers(object))? {
        return Ok(Err(MooError::PermissionDenied));
    }
    Ok(Ok(texts_value(alloc, names.as_slice())?))
}

/// `property_info`: `{owner, bits}`. `E_INVARG` where the object is not there, `E_PROPNF` where it has no such slot, `E_PERM` where
/// the programmer may not read it.
pub fn property_info<V: View>(
    alloc: Global,
    view: &mut V,
    programmer: i32,
    object: i32,
    name: &Text,
) -> Result<Answer, AllocError>
    requires home { V.holds view.old (V.home view.old) }
    ensures lasts { Lasts V.holds V.home V.anchor view.old view.new result }
    ensures left { IfOk result (λ a. Tells V.holds V.now view.old view.new
        (λ w. Says (λ s c. property_info_row s c (object_of object ∷ text_value name.now ∷ [])) w programmer (answer_of a))) }
{
    let Some(slot) = read_slot(view, object, name)? else {
        let error = missing(view, object)?;
        return Ok(Err(error));
    };
    if !may(view, programmer, &Act::ReadSlot(object, name.clone()?))? {
        return Ok(Err(MooError::PermissionDenied));
    }
    Ok(Ok(info(alloc, &slot)?))
}

fn info(alloc: Global, slot: &Slot) -> Result<Value, AllocError>
    ensures { IfOk result (λ v. v ≡ list_of (item (object_of slot.now.owner) (item (text_value (slot_bits_of slot.now)) no_data))) }
{
    let bits = slot_bits(alloc, slot)?;
    let mut items = Vec::with_capacity(alloc, 2)?;
    items.push(Value::object(slot.owner))?;
    items.push(Value::text(bits))?;
    Value::list(items)
}

/// `is_clear_property`, with the same errors.
pub fn is_clear_property<V: View>(
    view: &mut V,
    programmer: i32,
    object: i32,
    name: &Text,
) -> Result<Answer, AllocError>
    requires home { V.holds view.old (V.home view.old) }
    ensures lasts { Lasts V.holds V.home V.anchor view.old view.new result }
    ensures left { IfOk result (λ a. Tells V.holds V.now view.old view.new
        (λ w. Says (λ s c. is_clear_property_row s c (object_of object ∷ text_value name.now ∷ [])) w programmer (answer_of a))) }
{
    let Some(slot) = read_slot(view, object, name)? else {
        let error = missing(view, object)?;
        return Ok(Err(error));
    };
    if !may(view, programmer, &Act::ReadSlot(object, name.clone()?))? {
        return Ok(Err(MooError::PermissionDenied));
    }
    Ok(Ok(clarity(&slot)))
}

// Whether a slot is clear, as a value.
fn clarity(slot: &Slot) -> Value
    ensures { result ≡ truth (is_none slot.now.content) }
{
    Value::truth(slot.content.is_clear())
}

/// `clear_property`. The errors before, by the right to write; `E_INVARG` where the object defines the property itself.
pub fn clear_property<V: View>(
    view: &mut V,
    programmer: i32,
    object: i32,
    name: &Text,
) -> Result<Answer, AllocError>
    requires home { V.holds view.old (V.home view.old) }
    ensures lasts { Lasts V.holds V.home V.anchor view.old view.new result }
    ensures left { IfOk result (λ a. Goes V.holds V.now view.old view.new
        (λ before after. Does (λ s c. clear_property_row s c (object_of object ∷ text_value name.now ∷ [])) before after programmer (answer_of a))) }
    ensures well_formed { AreAgreeing V.holds V.now view.old → OnOk result (AreAgreeing V.holds V.now view.new) }
{
    clear(view, programmer, object, name)
}

fn clear<V: View>(
    view: &mut V,
    programmer: i32,
    object: i32,
    name: &Text,
) -> Result<Answer, AllocError>
    requires home { V.holds view.old (V.home view.old) }
    ensures lasts { Lasts V.holds V.home V.anchor view.old view.new result }
    ensures left { IfOk result (λ a. Goes V.holds V.now view.old view.new
        (λ before after. Does (λ s c. clear_property_row s c (object_of object ∷ text_value name.now ∷ [])) before after programmer (answer_of a))) }
{
    let Some(slot) = read_slot(view, object, name)? else {
        let error = missing(view, object)?;
        return Ok(Err(error));
    };
    let Some(defined) = defines(view, object, name)? else {
        return Ok(Err(MooError::InvalidArgument));
    };
    if !may(view, programmer, &Act::WriteSlot(object, name.clone()?))? {
        return Ok(Err(MooError::PermissionDenied));
    }
    if defined {
        return Ok(Err(MooError::InvalidArgument));
    }
    put_slot(view, object, name, cleared(slot))?;
    Ok(Ok(Value::integer(0)))
}

fn cleared(slot: Slot) -> Slot
    ensures { result ≡ record slot { content = None } }
{
    Slot {
        content: Content::clear(),
        ..slot
    }
}

/// A property's slot on an object that is there is another one.
#[tactic(auto, using(crate::proofs::BuiltinsWorldChanges::slot_put))]
pub fn put_slot<V: View>(
    view: &mut V,
    object: i32,
    name: &Text,
    slot: Slot,
) -> Result<(), AllocError>
    ensures lasts { Lasts V.holds V.home V.anchor view.old view.new result }
    ensures left { OnOk result (Goes V.holds V.now view.old view.new (λ before after. after ≡ with_slot before object name.now slot)) }
{
    let part = slot_part(name, slot)?;
    write_part(view, object, part)
}

fn slot_part(name: &Text, slot: Slot) -> Result<Part, AllocError>
    ensures { IfOk result (λ p. part_of p ≡ new_slot name.now (Some slot)) }
{
    Ok(Part::Slot(name.clone()?, Some(slot)))
}

/// Why there is no slot of a name: the object is not there, or has no such property.
pub fn missing<V: View>(view: &mut V, object: i32) -> Result<MooError, AllocError>
    ensures lasts { Lasts V.holds V.home V.anchor view.old view.new result }
    ensures left { IfOk result (λ e. Tells V.holds V.now view.old view.new (λ w. missing_error (object_at w object) ≡ code_of e)) }
{
    match read_header(view, object)? {
        Some(_) => Ok(MooError::PropertyNotFound),
        None => Ok(MooError::InvalidArgument),
    }
}

// Whether an object defines a property itself, or None where it is not there.
fn defines<V: View>(view: &mut V, object: i32, name: &Text) -> Result<Option<bool>, AllocError>
    ensures lasts { Lasts V.holds V.home V.anchor view.old view.new result }
    ensures left { IfOk result (λ d. Tells V.holds V.now view.old view.new (λ w. option_map (λ x. defines_it x name.now) (object_at w object) ≡ d)) }
{
    match read_defines(view, object)? {
        Some(names) => Ok(Some(has_name(names.as_slice(), name))),
        None => Ok(None),
    }
}

/// Whether a name is among others. Case is ignored.
pub fn has_name(names: &[Text], name: &Text) -> bool
    ensures { result ≡ has_name_of (map fold_case names.now) (fold_case name.now) }
{
    for other in names {
        if is_same(name.as_str().as_bytes(), other.as_str().as_bytes()) {
            return true;
        }
    }
    false
}

// The bits r, w and c of a slot.
fn slot_bits(alloc: Global, slot: &Slot) -> Result<Text, AllocError>
    ensures { IfOk result (λ t. t ≡ slot_bits_of slot.now) }
{
    let bits = match (slot.readable, slot.writable, slot.changeable) {
        (false, false, false) => "",
        (false, false, true) => "c",
        (false, true, false) => "w",
        (false, true, true) => "wc",
        (true, false, false) => "r",
        (true, false, true) => "rc",
        (true, true, false) => "rw",
        (true, true, true) => "rwc",
    };
    Text::from_str(alloc, bits)
}
