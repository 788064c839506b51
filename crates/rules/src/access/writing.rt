//! Properties written by programs.
ghost use Rattle.std.specs.Prelude.{◌≡◌, ◌||◌, IfOk, OnOk, option_map};
ghost use Rattle.spec_value.specs.Datum.{Datum, object as object_of, text, is_true};
ghost use Rattle.spec_world.specs.World.{Object, object_at};
ghost use Rattle.spec_world.specs.Permissions.{is_wizard as is_wizard_of};
ghost use Rattle.spec_moo.specs.Properties.{own_name, own_owner, write, write_object, with_built_in};
ghost use Rattle.moo_value.specs.Errors.{code_of};
ghost use Rattle.rules.specs.Lines.{AreAgreeing};
ghost use Rattle.view.specs.Law.{Goes, Lasts, Tells};
ghost use Rattle.view.specs.BuiltIn.{attribute_of, flag_of, property_of};
ghost use Rattle.rules.specs.Writing.{IsWritten, IsSimplyWritten, write_named as write_named_of, built_in_written, place_error, owner_may as owner_may_of, is_bit as is_bit_of};

use crate::access::reading::missing;
use crate::permissions::may::{is_wizard, owns_or_is_wizard};
use moo_value::error::MooError;
use moo_value::text::Text;
use moo_value::value::{Shown, Value};
use std::alloc::{AllocError, Global};
use view::built_in::{Attribute, BuiltIn, Flag, named};
use view::header::Header;
use view::law::View;
use view::part::Part;
use view::readers::{read_header, read_slot, write_part, write_value};

/// Gives a property another value, by an object and a name, for a programmer: `E_TYPE` where they are no object and no text,
/// `E_INVIND` where the object is not there, `E_PROPNF` where it has no such property; a name wants a text and an owner an
/// object, else `E_TYPE`; `E_PERM` where the programmer may not write it.
#[tactic(auto, unfolding(spec_moo::specs::Properties::write))]
#[inline(always)]
pub fn write_property<V: View>(
    alloc: Global,
    view: &mut V,
    programmer: i32,
    object: &Value,
    name: &Value,
    value: Value,
) -> Result<Result<(), MooError>, AllocError>
    requires { V.holds view.old (V.home view.old) }
    ensures lasts { Lasts V.holds V.home V.anchor view.old view.new result }
    ensures left { IfOk result (λ a. Goes V.holds V.now view.old view.new
        (λ before after. IsWritten before after (write before programmer object.now name.now value) a)) }
    ensures well_formed { AreAgreeing V.holds V.now view.old → OnOk result (AreAgreeing V.holds V.now view.new) }
{
    match (object.shown(), name.as_text()) {
        (Shown::Object(object), Some(name)) => {
            write_by_name(alloc, view, programmer, object, name, value)
        }
        _ => Ok(Err(MooError::TypeMismatch)),
    }
}

/// Gives a property another value, by an object and a name, for a programmer who owns it or where all may write it, unless it is a built-in one; whether it
/// did. Else nothing is done.
#[inline(always)]
pub fn write_simply<V: View>(
    view: &mut V,
    programmer: i32,
    object: &Value,
    name: &Value,
    value: &Value,
) -> Result<bool, AllocError>
    requires { V.holds view.old (V.home view.old) }
    ensures lasts { Lasts V.holds V.home V.anchor view.old view.new result }
    ensures left { IfOk result (λ b. Goes V.holds V.now view.old view.new (IsSimplyWritten b programmer object.now name.now value.now)) }
    ensures well_formed { AreAgreeing V.holds V.now view.old → OnOk result (AreAgreeing V.holds V.now view.new) }
{
    match (object.shown(), name.as_text()) {
        (Shown::Object(object), Some(name)) => write_named(view, programmer, object, name, value),
        _ => Ok(false),
    }
}

/// The same by an object's number and a text.
#[inline(always)]
pub fn write_named<V: View>(
    view: &mut V,
    programmer: i32,
    object: i32,
    name: &Text,
    value: &Value,
) -> Result<bool, AllocError>
    requires { V.holds view.old (V.home view.old) }
    ensures lasts { Lasts V.holds V.home V.anchor view.old view.new result }
    ensures left { IfOk result (λ b. Goes V.holds V.now view.old view.new (IsSimplyWritten b programmer (object_of object) (text name.now) value.now)) }
    ensures well_formed { AreAgreeing V.holds V.now view.old → OnOk result (AreAgreeing V.holds V.now view.new) }
{
    let property = named(name.as_str());
    match property {
        Some(_) => Ok(false),
        None => view.write(programmer, object, name, value),
    }
}

/// Gives an object's property another value, by its name, for a programmer.
#[inline(always)]
pub fn write_by_name<V: View>(
    alloc: Global,
    view: &mut V,
    programmer: i32,
    object: i32,
    name: &Text,
    value: Value,
) -> Result<Result<(), MooError>, AllocError>
    ensures lasts { Lasts V.holds V.home V.anchor view.old view.new result }
    ensures left { IfOk result (λ a. Goes V.holds V.now view.old view.new
        (λ before after. IsWritten before after (write_object before programmer object name.now value (object_at before object)) a)) }
{
    match named(name.as_str()) {
        Some(property) => write_built_in(alloc, view, programmer, object, property, value),
        None => write_own(view, programmer, object, name, value),
    }
}

// Of a property that is no built-in one. A slot shows that its object is there.
#[inline(always)]
fn write_own<V: View>(
    view: &mut V,
    programmer: i32,
    object: i32,
    name: &Text,
    value: Value,
) -> Result<Result<(), MooError>, AllocError>
    ensures lasts { Lasts V.holds V.home V.anchor view.old view.new result }
    ensures left { IfOk result (λ a. Goes V.holds V.now view.old view.new
        (λ before after. IsWritten before after (write_named_of before programmer object name.now value (object_at before object)) a)) }
{
    let Some(slot) = read_slot(view, object, name)? else {
        let error = missing(view, object)?;
        return Ok(Err(error));
    };
    let allowed = owns_or_is_wizard(view, programmer, slot.owner, slot.writable)?;
    if !allowed {
        return Ok(Err(MooError::PermissionDenied));
    }
    write_value(view, object, name, value)?;
    Ok(Ok(()))
}

// Of a built-in one. Nobody writes where an object is and what it holds.
#[tactic(auto, unfolding(spec_world::specs::Permissions::may))]
#[inline(never)]
fn write_built_in<V: View>(
    alloc: Global,
    view: &mut V,
    programmer: i32,
    object: i32,
    property: BuiltIn,
    value: Value,
) -> Result<Result<(), MooError>, AllocError>
    ensures lasts { Lasts V.holds V.home V.anchor view.old view.new result }
    ensures left { IfOk result (λ a. Goes V.holds V.now view.old view.new
        (λ before after. IsWritten before after (built_in_written before programmer object value (property_of property) (object_at before object)) a)) }
{
    match property {
        BuiltIn::Of(attribute) => {
            write_attribute(alloc, view, programmer, object, attribute, &value)
        }
        BuiltIn::Contents => {
            let error = never_written(view, object)?;
            Ok(Err(error))
        }
        BuiltIn::Location => {
            let error = never_written(view, object)?;
            Ok(Err(error))
        }
    }
}

fn never_written<V: View>(view: &mut V, object: i32) -> Result<MooError, AllocError>
    ensures lasts { Lasts V.holds V.home V.anchor view.old view.new result }
    ensures left { IfOk result (λ e. Tells V.holds V.now view.old view.new (λ w. place_error (object_at w object) ≡ code_of e)) }
{
    match read_header(view, object)? {
        Some(_) => Ok(MooError::PermissionDenied),
        None => Ok(MooError::InvalidIndirection),
    }
}

fn write_attribute<V: View>(
    alloc: Global,
    view: &mut V,
    programmer: i32,
    object: i32,
    attribute: Attribute,
    value: &Value,
) -> Result<Result<(), MooError>, AllocError>
    ensures lasts { Lasts V.holds V.home V.anchor view.old view.new result }
    ensures left { IfOk result (λ a. Goes V.holds V.now view.old view.new
        (λ before after. IsWritten before after (built_in_written before programmer object value.now (attribute_of attribute) (object_at before object)) a)) }
{
    let Some(header) = read_header(view, object)? else {
        return Ok(Err(MooError::InvalidIndirection));
    };
    let own = owner_may(&header, programmer, attribute);
    let Some(header) = with_attribute(alloc, header, attribute, value)? else {
        return Ok(Err(MooError::TypeMismatch));
    };
    let allowed = or_is_wizard(view, programmer, own)?;
    if !allowed {
        return Ok(Err(MooError::PermissionDenied));
    }
    write_part(view, object, Part::Header(header))?;
    Ok(Ok(()))
}

// What is allowed already, or to a wizard.
fn or_is_wizard<V: View>(view: &mut V, who: i32, allowed: bool) -> Result<bool, AllocError>
    requires { V.holds view.old (V.home view.old) }
    ensures lasts { Lasts V.holds V.home V.anchor view.old view.new result }
    ensures left { IfOk result (λ b. Tells V.holds V.now view.old view.new (λ w. (is_wizard_of w who || allowed) ≡ b)) }
{
    if allowed {
        return Ok(true);
    }
    is_wizard(view, who)
}

// Whether one who is no wizard may write an attribute of an object with this header.
fn owner_may(header: &Header, who: i32, attribute: Attribute) -> bool
    ensures { result ≡ owner_may_of header.now who (attribute_of attribute) }
{
    match attribute {
        Attribute::Name => who == header.owner && !header.is_player,
        Attribute::Owner => false,
        Attribute::Flag(flag) => is_bit(flag) && who == header.owner,
    }
}

// Whether it is one of the bits r, w, f.
fn is_bit(flag: Flag) -> bool
    ensures { result ≡ is_bit_of (flag_of flag) }
{
    match flag {
        Flag::Programmer | Flag::Wizard => false,
        Flag::Readable | Flag::Writable | Flag::Fertile => true,
    }
}

// The header with another value for an attribute, unless the value is of another kind.
fn with_attribute(
    alloc: Global,
    header: Header,
    attribute: Attribute,
    value: &Value,
) -> Result<Option<Header>, AllocError>
    ensures { IfOk result (λ h. (x : Object) → x.header ≡ header → with_built_in x (attribute_of attribute) value.now ≡ option_map (λ k. record x { header = k }) h) }
{
    match attribute {
        Attribute::Name => with_name(alloc, header, value),
        Attribute::Owner => Ok(with_owner(header, value)),
        Attribute::Flag(flag) => Ok(Some(with_flag(header, flag, value.is_true()))),
    }
}

fn with_name(alloc: Global, header: Header, value: &Value) -> Result<Option<Header>, AllocError>
    ensures { IfOk result (λ h. (x : Object) → x.header ≡ header → with_built_in x own_name value.now ≡ option_map (λ k. record x { header = k }) h) }
{
    value.know();
    match value.shown() {
        Shown::Text(name) => Ok(Some(Header {
            name: Text::from_str(alloc, name)?,
            ..header
        })),
        _ => Ok(None),
    }
}

fn with_owner(header: Header, value: &Value) -> Option<Header>
    ensures { (x : Object) → x.header ≡ header → with_built_in x own_owner value.now ≡ option_map (λ k. record x { header = k }) result }
{
    match value.shown() {
        Shown::Object(owner) => Some(Header { owner, ..header }),
        _ => None,
    }
}

// With a flag or a bit.
fn with_flag(header: Header, flag: Flag, truth: bool) -> Header
    ensures { (x : Object) → x.header ≡ header → (v : Datum) → is_true v ≡ truth → with_built_in x (flag_of flag) v ≡ Some (record x { header = result }) }
{
    match flag {
        Flag::Programmer => Header {
            is_programmer: truth,
            ..header
        },
        Flag::Wizard => Header {
            is_wizard: truth,
            ..header
        },
        Flag::Readable => Header {
            readable: truth,
            ..header
        },
        Flag::Writable => Header {
            writable: truth,
            ..header
        },
        Flag::Fertile => Header {
            fertile: truth,
            ..header
        },
    }
}
