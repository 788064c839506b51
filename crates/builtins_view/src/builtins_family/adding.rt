//! Properties that come (Programmer's Manual, `add_property()`).
ghost use Rattle.std.specs.Prelude.{◌≡◌, ◌++◌, [], ◌∷◌, Some, IfOk, OnOk, option_map};
ghost use Rattle.spec_value.specs.Datum.{object as object_of, text as text_value};
ghost use Rattle.spec_world.specs.Agreeing.{ObjectsAgree};
ghost use Rattle.spec_world.specs.Members.{property_added};
ghost use Rattle.spec_world.specs.Questions.{defines_at};
ghost use Rattle.spec_moo.specs.Natives.Properties.{add_property_row, slot_with as slot_with_of};
ghost use Rattle.moo_value.specs.Answers.{answer_of};
ghost use Rattle.rules.specs.Lines.{AreAgreeing};
ghost use Rattle.view.specs.Law.{Goes, Lasts, Tells};
ghost use Rattle.builtins_view.specs.Said.{Does};
ghost use Rattle.builtins_view.specs.BuiltinsChangeListed.{owner_and_bits};
ghost use Rattle.rules.specs.Below.{IsFamily};
ghost use Rattle.builtins_view.specs.Defining.{DefinableOn, property_given, property_owned};

use crate::builtins_change::properties::{fits, with_bits};
use crate::builtins_family::each::give_slots;
use crate::builtins_family::naming::is_new_name;
use moo_value::answer::Answer;
use moo_value::error::MooError;
use moo_value::text::Text;
use moo_value::value::Value;
use rules::family::below::below;
use rules::permissions::act::Act;
use rules::permissions::may::may;
use slot_content::content::Content;
use std::alloc::{AllocError, Global};
use view::law::View;
use view::lists::Names;
use view::part::Part;
use view::readers::{read_defines, write_part};
use view::slot::Slot;

/// `add_property`. `E_INVARG` where the object is not there, `E_PERM` where the programmer may not add to it or not give to that
/// owner, and `E_INVARG` for a name that is empty, or that a built-in property has, or a property above or below; for other bits
/// than r, w and c, and for an owner that is not there.
pub fn add_property<V: View>(
    alloc: Global,
    view: &mut V,
    programmer: i32,
    object: i32,
    name: &Text,
    value: Value,
    owner: i32,
    bits: &Text,
) -> Result<Answer, AllocError>
    requires home { V.holds view.old (V.home view.old) }
    requires well_formed { AreAgreeing V.holds V.now view.old }
    ensures lasts { Lasts V.holds V.home V.anchor view.old view.new result }
    ensures left { IfOk result (λ a. Goes V.holds V.now view.old view.new
        (λ before after. Does (λ s c. add_property_row s c (object_of object ∷ text_value name.now ∷ value ∷ owner_and_bits owner bits.now ∷ []))
        before after programmer (answer_of a))) }
    ensures well_formed { OnOk result (AreAgreeing V.holds V.now view.new) }
{
    let slot = slot_with(value, owner, bits);
    add(alloc, view, programmer, object, name, slot, owner, bits)
}

// The slot of a new property.
fn slot_with(value: Value, owner: i32, bits: &Text) -> Slot
    ensures { result ≡ slot_with_of value owner bits.now }
{
    let slot = Slot {
        content: Content::value(value),
        owner,
        readable: false,
        writable: false,
        changeable: false,
    };
    with_bits(slot, owner, bits.as_str().as_bytes())
}

// A property that has this slot is added.
fn add<V: View>(
    alloc: Global,
    view: &mut V,
    programmer: i32,
    object: i32,
    name: &Text,
    slot: Slot,
    owner: i32,
    bits: &Text,
) -> Result<Answer, AllocError>
    requires home { V.holds view.old (V.home view.old) }
    requires well_formed { AreAgreeing V.holds V.now view.old }
    ensures lasts { Lasts V.holds V.home V.anchor view.old view.new result }
    ensures left { IfOk result (λ a. Goes V.holds V.now view.old view.new
        (λ before after. Does (property_given object name.now slot owner bits.now) before after programmer (answer_of a))) }
{
    let Some(names) = read_defines(view, object)? else {
        return Ok(Err(MooError::InvalidArgument));
    };
    let allowed = may(view, programmer, &Act::ChangeMembers(object))?;
    if !allowed {
        return Ok(Err(MooError::PermissionDenied));
    }
    let answer = add_owned(
        alloc,
        view,
        programmer,
        object,
        names.as_slice(),
        name,
        &slot,
        owner,
        bits,
    )?;
    Ok(answer)
}

// An object that may have more properties, and defines these ones, has one more.
fn add_owned<V: View>(
    alloc: Global,
    view: &mut V,
    programmer: i32,
    object: i32,
    names: &[Text],
    name: &Text,
    slot: &Slot,
    owner: i32,
    bits: &Text,
) -> Result<Answer, AllocError>
    requires home { V.holds view.old (V.home view.old) }
    requires well_formed { AreAgreeing V.holds V.now view.old }
    ensures lasts { Lasts V.holds V.home V.anchor view.old view.new result }
    ensures left { IfOk result (λ a. Goes V.holds V.now view.old view.new (λ before after. defines_at before object ≡ Some names.now →
        Does (property_owned object name.now slot.now owner bits.now) before after programmer (answer_of a))) }
{
    let allowed = may(view, programmer, &Act::ChangeOwner(programmer, owner))?;
    if !allowed {
        return Ok(Err(MooError::PermissionDenied));
    }
    let family = definable(alloc, view, object, name, owner, bits)?;
    let Some(family) = family else {
        return Ok(Err(MooError::InvalidArgument));
    };
    define(alloc, view, object, names, family.as_slice(), name, slot)?;
    Ok(Ok(Value::integer(0)))
}

// An object and all below it, where a property may be defined on it.
fn definable<V: View>(
    alloc: Global,
    view: &mut V,
    object: i32,
    name: &Text,
    owner: i32,
    bits: &Text,
) -> Result<Option<Vec<i32>>, AllocError>
    requires home { V.holds view.old (V.home view.old) }
    requires well_formed { AreAgreeing V.holds V.now view.old }
    ensures lasts { Lasts V.holds V.home V.anchor view.old view.new result }
    ensures left { IfOk result (λ f. Tells V.holds V.now view.old view.new
        (λ w. DefinableOn w object name.now owner bits.now (option_map (λ ds. ds.items) f))) }
{
    let family = below(alloc, view, object)?;
    let is_new = is_new_name(view, object, family.as_slice(), name)?;
    if !is_new {
        return Ok(None);
    }
    let is_fit = fits(view, owner, bits)?;
    if !is_fit {
        return Ok(None);
    }
    Ok(Some(family))
}

// An object that defines these properties, with these below it, defines one more.
fn define<V: View>(
    alloc: Global,
    view: &mut V,
    object: i32,
    names: &[Text],
    family: &[i32],
    name: &Text,
    slot: &Slot,
) -> Result<(), AllocError>
    requires home { V.holds view.old (V.home view.old) }
    ensures lasts { Lasts V.holds V.home V.anchor view.old view.new result }
    ensures left { OnOk result (Goes V.holds V.now view.old view.new (λ before after.
        ObjectsAgree before → IsFamily before object family.now → defines_at before object ≡ Some names.now → after ≡ property_added before object name.now slot.now)) }
{
    let more = with_more(alloc, names, name)?;
    write_part(view, object, Part::Defines(more))?;
    give_slots(view, family, object, name, slot)
}

fn with_more(alloc: Global, names: &[Text], name: &Text) -> Result<Names, AllocError>
    ensures { IfOk result (λ ts. ts ≡ names.now ++ name.now ∷ []) }
{
    let mut all = Vec::with_capacity(alloc, names.len())?;
    for other in names {
        all.push(other.clone()?)?;
    }
    all.push(name.clone()?)?;
    Names::new(alloc, all)
}
