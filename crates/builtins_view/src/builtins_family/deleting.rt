//! Properties that go (Programmer's Manual, `delete_property()`).
ghost use Rattle.std.specs.Prelude.{◌≡◌, [], ◌∷◌, filter, not, Some, IfOk, OnOk};
ghost use Rattle.spec_value.specs.Datum.{object as object_of, text as text_value, fold_case, same_text};
ghost use Rattle.spec_world.specs.Agreeing.{ObjectsAgree};
ghost use Rattle.spec_world.specs.Members.{property_deleted};
ghost use Rattle.spec_world.specs.Questions.{defines_at};
ghost use Rattle.spec_moo.specs.Natives.Properties.{delete_property_row};
ghost use Rattle.moo_value.specs.Answers.{answer_of};
ghost use Rattle.rules.specs.Lines.{AreAgreeing};
ghost use Rattle.view.specs.Law.{Goes, Lasts};
ghost use Rattle.builtins_view.specs.Said.{Does};
ghost use Rattle.rules.specs.Below.{IsFamily};

use crate::builtins_world::properties::has_name;
use moo_value::answer::Answer;
use moo_value::error::MooError;
use moo_value::text::Text;
use moo_value::value::Value;
use rules::family::below::below;
use rules::family::losing::lose_slots;
use rules::permissions::act::Act;
use rules::permissions::may::may;
use std::alloc::{AllocError, Global};
use view::law::View;
use view::lists::Names;
use view::part::Part;
use view::readers::{read_defines, write_part};
use view::verb_names::is_same;

/// `delete_property`. `E_INVARG` where the object is not there, `E_PROPNF` where it does not define the property itself, `E_PERM`
/// where the programmer may not take from it.
pub fn delete_property<V: View>(
    alloc: Global,
    view: &mut V,
    programmer: i32,
    object: i32,
    name: &Text,
) -> Result<Answer, AllocError>
    requires home { V.holds view.old (V.home view.old) }
    requires well_formed { AreAgreeing V.holds V.now view.old }
    ensures lasts { Lasts V.holds V.home V.anchor view.old view.new result }
    ensures left { IfOk result (λ a. Goes V.holds V.now view.old view.new
        (λ before after. Does (λ s c. delete_property_row s c (object_of object ∷ text_value name.now ∷ [])) before after programmer (answer_of a))) }
    ensures well_formed { OnOk result (AreAgreeing V.holds V.now view.new) }
{
    delete(alloc, view, programmer, object, name)
}

fn delete<V: View>(
    alloc: Global,
    view: &mut V,
    programmer: i32,
    object: i32,
    name: &Text,
) -> Result<Answer, AllocError>
    requires home { V.holds view.old (V.home view.old) }
    requires well_formed { AreAgreeing V.holds V.now view.old }
    ensures lasts { Lasts V.holds V.home V.anchor view.old view.new result }
    ensures left { IfOk result (λ a. Goes V.holds V.now view.old view.new
        (λ before after. Does (λ s c. delete_property_row s c (object_of object ∷ text_value name.now ∷ [])) before after programmer (answer_of a))) }
{
    let Some(names) = read_defines(view, object)? else {
        return Ok(Err(MooError::InvalidArgument));
    };
    let named = has_name(names.as_slice(), name);
    if !named {
        return Ok(Err(MooError::PropertyNotFound));
    }
    let allowed = may(view, programmer, &Act::ChangeMembers(object))?;
    if !allowed {
        return Ok(Err(MooError::PermissionDenied));
    }
    let family = below(alloc, view, object)?;
    take_out(
        alloc,
        view,
        object,
        names.as_slice(),
        family.as_slice(),
        name,
    )?;
    Ok(Ok(Value::integer(0)))
}

// A property goes from an object that defines these ones, and from those below it, which are these.
fn take_out<V: View>(
    alloc: Global,
    view: &mut V,
    object: i32,
    names: &[Text],
    family: &[i32],
    name: &Text,
) -> Result<(), AllocError>
    requires home { V.holds view.old (V.home view.old) }
    ensures lasts { Lasts V.holds V.home V.anchor view.old view.new result }
    ensures left { OnOk result (Goes V.holds V.now view.old view.new (λ before after.
        ObjectsAgree before → IsFamily before object family.now → defines_at before object ≡ Some names.now → after ≡ property_deleted before object name.now)) }
{
    let others = without(alloc, names, name)?;
    write_part(view, object, Part::Defines(others))?;
    lose_slots(view, family, name)
}

// Names but for one. Case is ignored.
fn without(alloc: Global, names: &[Text], name: &Text) -> Result<Names, AllocError>
    ensures { IfOk result (λ ts. ts ≡ filter (λ q. not (same_text (fold_case name.now) (fold_case q))) names.now) }
{
    let mut others = Vec::with_capacity(alloc, names.len())?;
    for other in names {
        if !is_same(name.as_str().as_bytes(), other.as_str().as_bytes()) {
            others.push(other.clone()?)?;
        }
    }
    Names::new(alloc, others)
}
