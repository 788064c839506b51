//! The properties that every object has.
ghost use Rattle.std.specs.Prelude.{◌≡◌, ◌<◌, ◌+◌, ◌^◌, map, None, option_map, IfOk, IsTrue, OnOk};
ghost use Rattle.spec_value.specs.Datum.{fold_case, list, of_list};
ghost use Rattle.spec_value.specs.Answer.{truth};
ghost use Rattle.spec_world.specs.World.{Object, object_at};
ghost use Rattle.spec_moo.specs.Properties.{own_contents, own_location, built_in, row_of, built_in_value, objects_listed};
ghost use Rattle.moo_value.specs.Answers.{answer_of};
ghost use Rattle.view.specs.Law.{Lasts, Tells};
ghost use Rattle.rules.specs.BuiltIn.{built_in_at};
ghost use Rattle.view.specs.BuiltIn.{property_of, attribute_of, flag_of};

use moo_value::answer::Answer;
use moo_value::error::MooError;
use moo_value::value::Value;
use std::alloc::{AllocError, Global};
use view::built_in::{Attribute, BuiltIn, Flag};
use view::header::Header;
use view::law::View;
use view::readers::{read_contents, read_header};

/// The value of a built-in property of an object, which all may read. `E_INVIND` where the object is not there.
#[inline(never)]
pub fn read_built_in<V: View>(
    alloc: Global,
    view: &mut V,
    object: i32,
    property: BuiltIn,
) -> Result<Answer, AllocError>
    ensures lasts { Lasts V.holds V.home V.anchor view.old view.new result }
    ensures left { IfOk result (λ a. Tells V.holds V.now view.old view.new
        (λ w. built_in_at (object_at w object) (property_of property) ≡ answer_of a)) }
{
    match property {
        BuiltIn::Contents => read_own_contents(alloc, view, object),
        BuiltIn::Location => read_location(view, object),
        BuiltIn::Of(attribute) => read_attribute(view, object, attribute),
    }
}

fn read_own_contents<V: View>(
    alloc: Global,
    view: &mut V,
    object: i32,
) -> Result<Answer, AllocError>
    ensures lasts { Lasts V.holds V.home V.anchor view.old view.new result }
    ensures left { IfOk result (λ a. Tells V.holds V.now view.old view.new
        (λ w. built_in_at (object_at w object) own_contents ≡ answer_of a)) }
{
    match read_contents(view, object)? {
        Some(contents) => Ok(Ok(objects_value(alloc, contents.as_slice())?)),
        None => Ok(Err(MooError::InvalidIndirection)),
    }
}

fn read_location<V: View>(view: &mut V, object: i32) -> Result<Answer, AllocError>
    ensures lasts { Lasts V.holds V.home V.anchor view.old view.new result }
    ensures left { IfOk result (λ a. Tells V.holds V.now view.old view.new
        (λ w. built_in_at (object_at w object) own_location ≡ answer_of a)) }
{
    match read_header(view, object)? {
        Some(header) => Ok(Ok(Value::object(header.location))),
        None => Ok(Err(MooError::InvalidIndirection)),
    }
}

fn read_attribute<V: View>(
    view: &mut V,
    object: i32,
    attribute: Attribute,
) -> Result<Answer, AllocError>
    ensures lasts { Lasts V.holds V.home V.anchor view.old view.new result }
    ensures left { IfOk result (λ a. Tells V.holds V.now view.old view.new
        (λ w. built_in_at (object_at w object) (attribute_of attribute) ≡ answer_of a)) }
{
    match read_header(view, object)? {
        Some(header) => Ok(Ok(attribute_value(header, attribute))),
        None => Ok(Err(MooError::InvalidIndirection)),
    }
}

// What an attribute is where the header is this one.
fn attribute_value(header: Header, attribute: Attribute) -> Value
    ensures { (x : Object) → x.header ≡ header → built_in_value x (attribute_of attribute) ≡ result }
{
    match attribute {
        Attribute::Name => Value::text(header.name),
        Attribute::Owner => Value::object(header.owner),
        Attribute::Flag(flag) => Value::truth(has_flag(&header, flag)),
    }
}

fn has_flag(header: &Header, flag: Flag) -> bool
    ensures { (x : Object) → x.header ≡ header.now → built_in_value x (flag_of flag) ≡ truth result }
{
    match flag {
        Flag::Programmer => header.is_programmer,
        Flag::Wizard => header.is_wizard,
        Flag::Readable => header.readable,
        Flag::Writable => header.writable,
        Flag::Fertile => header.fertile,
    }
}

// A list of objects, as a value.
fn objects_value(alloc: Global, objects: &[i32]) -> Result<Value, AllocError>
    ensures { IfOk result (λ v. v ≡ list (of_list (objects_listed objects.now))) }
{
    let mut items = Vec::with_capacity(alloc, objects.len())?;
    for object in objects {
        items.push(Value::object(*object))?;
    }
    Value::list(items)
}
