//! Properties read by programs.
ghost use Rattle.std.specs.Prelude.{◌≡◌, IfOk, IfSome, OnOk};
ghost use Rattle.spec_world.specs.World.{World, object_at};
ghost use Rattle.spec_value.specs.Answer.{gives};
ghost use Rattle.spec_moo.specs.Properties.{read, read_object, found as found_of};
ghost use Rattle.moo_value.specs.Answers.{answer_of};
ghost use Rattle.moo_value.specs.Errors.{code_of};
ghost use Rattle.rules.specs.Lines.{AreAgreeing};
ghost use Rattle.view.specs.Law.{Lasts, StaysSound, Tells};
ghost use Rattle.view.specs.Writing.{IsReadBy};
ghost use Rattle.rules.specs.Reading.{missing_error, read_named};

use crate::access::built_in::read_built_in;
use crate::inherit::property::inherited;
use crate::permissions::may::owns_or_is_wizard;
use moo_value::answer::Answer;
use moo_value::error::MooError;
use moo_value::text::Text;
use moo_value::value::{Shown, Value};
use std::alloc::{AllocError, Global};
use view::built_in::named;
use view::law::View;
use view::readers::{read_header, read_slot};
use view::slot::Slot;

/// The value of a property, by an object and a name, for a programmer: `E_TYPE` where they are no object and no text, `E_INVIND`
/// where the object is not there, `E_PROPNF` where it has no such property, `E_PERM` where the programmer may not read it.
#[tactic(auto, unfolding(spec_moo::specs::Properties::read))]
pub fn read_property<V: View>(
    alloc: Global,
    view: &mut V,
    programmer: i32,
    object: &Value,
    name: &Value,
) -> Result<Answer, AllocError>
    requires home { V.holds view.old (V.home view.old) }
    requires well_formed { AreAgreeing V.holds V.now view.old }
    ensures lasts { Lasts V.holds V.home V.anchor view.old view.new result }
    ensures left { IfOk result (λ a. Tells V.holds V.now view.old view.new (λ w. read w programmer object.now name.now ≡ answer_of a)) }
    ensures sound { OnOk result (StaysSound V.home V.now view.old view.new) }
{
    match (object.shown(), name.as_text()) {
        (Shown::Object(object), Some(name)) => {
            read_by_name(alloc, view, programmer, object, name)
        }
        _ => Ok(Err(MooError::TypeMismatch)),
    }
}

/// The value of an object's property by its name, for a programmer.
#[inline(always)]
pub fn read_by_name<V: View>(
    alloc: Global,
    view: &mut V,
    programmer: i32,
    object: i32,
    name: &Text,
) -> Result<Answer, AllocError>
    requires home { V.holds view.old (V.home view.old) }
    requires well_formed { AreAgreeing V.holds V.now view.old }
    ensures lasts { Lasts V.holds V.home V.anchor view.old view.new result }
    ensures left { IfOk result (λ a. Tells V.holds V.now view.old view.new
        (λ w. read_object w programmer object name.now (object_at w object) ≡ answer_of a)) }
    ensures sound { OnOk result (StaysSound V.home V.now view.old view.new) }
{
    let property = named(name.as_str());
    match property {
        Some(property) => read_built_in(alloc, view, object, property),
        None => read_plain(view, programmer, object, name),
    }
}

/// The same, lent, if the view has it at hand, the programmer owns it or all may read it, and it is no built-in one.
#[inline(always)]
pub fn lent_by_name<'v, V: View>(
    view: &'v V,
    programmer: i32,
    object: i32,
    name: &Text,
) -> Option<&'v Value>
    requires well_formed { AreAgreeing V.holds V.now view.now }
    ensures { IfSome result (λ v. (w : World) → V.holds view.now w →
        read_object (V.now view.now w) programmer object name.now (object_at (V.now view.now w) object) ≡ gives v.now) }
{
    view.value_at_hand(programmer, object, name)
}

// Of a property that is no built-in one. What the view has at hand is not asked for.
#[inline(always)]
fn read_plain<V: View>(
    view: &mut V,
    programmer: i32,
    object: i32,
    name: &Text,
) -> Result<Answer, AllocError>
    requires home { V.holds view.old (V.home view.old) }
    requires well_formed { AreAgreeing V.holds V.now view.old }
    ensures lasts { Lasts V.holds V.home V.anchor view.old view.new result }
    ensures left { IfOk result (λ a. Tells V.holds V.now view.old view.new
        (λ w. read_named w programmer object name.now (object_at w object) ≡ answer_of a)) }
{
    let value = at_hand(view, programmer, object, name)?;
    match value {
        Some(value) => Ok(Ok(value)),
        None => read_own(view, programmer, object, name),
    }
}

// The value of a property that the view has at hand, if the programmer owns it or all may read it.
#[inline(always)]
fn at_hand<V: View>(
    view: &V,
    programmer: i32,
    object: i32,
    name: &Text,
) -> Result<Option<Value>, AllocError>
    ensures { IfOk result (λ o. IfSome o (λ v. (w : World) → V.holds view.now w → IsReadBy programmer object name.now v (V.now view.now w))) }
{
    match view.value_at_hand(programmer, object, name) {
        Some(value) => {
            let value = value.clone()?;
            Ok(Some(value))
        }
        None => Ok(None),
    }
}

// The same by what is asked. A slot shows that its object is there.
#[inline(never)]
fn read_own<V: View>(
    view: &mut V,
    programmer: i32,
    object: i32,
    name: &Text,
) -> Result<Answer, AllocError>
    requires home { V.holds view.old (V.home view.old) }
    requires well_formed { AreAgreeing V.holds V.now view.old }
    ensures lasts { Lasts V.holds V.home V.anchor view.old view.new result }
    ensures left { IfOk result (λ a. Tells V.holds V.now view.old view.new
        (λ w. read_named w programmer object name.now (object_at w object) ≡ answer_of a)) }
{
    let Some(slot) = read_slot(view, object, name)? else {
        let error = missing(view, object)?;
        return Ok(Err(error));
    };
    let allowed = owns_or_is_wizard(view, programmer, slot.owner, slot.readable)?;
    if !allowed {
        return Ok(Err(MooError::PermissionDenied));
    }
    let content = content_of(slot)?;
    match content {
        Some(value) => Ok(Ok(value)),
        None => {
            let value = inherited(view, object, name)?;
            Ok(found(value))
        }
    }
}

// What a slot holds, taken out of it.
#[inline(always)]
fn content_of(slot: Slot) -> Result<Option<Value>, AllocError>
    ensures { IfOk result (λ content. content ≡ slot.content) }
{
    slot.content.into_value()
}

/// Why there is no slot of a name: the object is not there, or has no such property.
#[inline(never)]
pub(crate) fn missing<V: View>(view: &mut V, object: i32) -> Result<MooError, AllocError>
    ensures lasts { Lasts V.holds V.home V.anchor view.old view.new result }
    ensures left { IfOk result (λ e. Tells V.holds V.now view.old view.new (λ w. missing_error (object_at w object) ≡ code_of e)) }
{
    match read_header(view, object)? {
        Some(_) => Ok(MooError::PropertyNotFound),
        None => Ok(MooError::InvalidIndirection),
    }
}

fn found(value: Option<Value>) -> Answer
    ensures { answer_of result ≡ found_of value }
{
    match value {
        Some(value) => Ok(value),
        None => Err(MooError::PropertyNotFound),
    }
}
