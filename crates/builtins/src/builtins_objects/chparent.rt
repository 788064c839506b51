//! Another parent for an object (Programmer's Manual, `chparent()`).
ghost use Rattle.std.specs.Prelude.{◌≡◌, [], ◌∷◌, option_map, IfOk, OnOk};
ghost use Rattle.spec_value.specs.Datum.{object as object_of};
ghost use Rattle.spec_world.specs.World.{object_at};
ghost use Rattle.spec_world.specs.Families.{parent_of as parent_in};
ghost use Rattle.spec_moo.specs.Natives.Objects.{chparent_row};
ghost use Rattle.moo_value.specs.Answers.{answer_of};
ghost use Rattle.moo_value.specs.Errors.{code_of};
ghost use Rattle.rules.specs.Lines.{AreAgreeing};
ghost use Rattle.rules.specs.Below.{IsFamily};
ghost use Rattle.view.specs.Law.{Goes, Lasts, Tells};
ghost use Rattle.builtins_view.specs.Said.{Does};
ghost use Rattle.builtins.specs.Verdict.{verdict};
ghost use Rattle.builtins.specs.Parents.{adopted, parent_checks};

use crate::builtins_objects::asked::{are_there, is_below, may_both};
use builtins_view::reparenting::clashes::any_clashes;
use builtins_view::reparenting::reparent::reparent;
use moo_value::answer::Answer;
use moo_value::error::MooError;
use moo_value::value::Value;
use rules::family::below::below;
use rules::permissions::act::Act;
use std::alloc::{AllocError, Global};
use view::law::View;
use view::readers::read_header;

/// `chparent`. `E_INVARG` where the object is not there, or the parent is not, `E_PERM` where the programmer may not change the one
/// or have children of the other, `E_RECMOVE` where the parent is the object or below it, and `E_INVARG` where the object or one
/// below it defines a property that the parent has.
pub fn chparent<V: View>(
    alloc: Global,
    view: &mut V,
    programmer: i32,
    object: i32,
    parent: i32,
) -> Result<Answer, AllocError>
    requires home { V.holds view.old (V.home view.old) }
    requires well_formed { AreAgreeing V.holds V.now view.old }
    ensures lasts { Lasts V.holds V.home V.anchor view.old view.new result }
    ensures left { IfOk result (λ a. Goes V.holds V.now view.old view.new
        (λ before after. Does (λ s c. chparent_row s c (object_of object ∷ object_of parent ∷ [])) before after programmer (answer_of a))) }
    ensures well_formed { OnOk result (AreAgreeing V.holds V.now view.new) }
{
    change_parent(alloc, view, programmer, object, parent)
}

fn change_parent<V: View>(
    alloc: Global,
    view: &mut V,
    programmer: i32,
    object: i32,
    parent: i32,
) -> Result<Answer, AllocError>
    requires home { V.holds view.old (V.home view.old) }
    requires well_formed { AreAgreeing V.holds V.now view.old }
    ensures lasts { Lasts V.holds V.home V.anchor view.old view.new result }
    ensures left { IfOk result (λ a. Goes V.holds V.now view.old view.new
        (λ before after. Does (λ s c. chparent_row s c (object_of object ∷ object_of parent ∷ [])) before after programmer (answer_of a))) }
{
    let refused = refusal(alloc, view, programmer, object, parent)?;
    if let Some(error) = refused {
        return Ok(Err(error));
    }
    let family = below(alloc, view, object)?;
    let clash = any_clashes(view, parent, family.as_slice())?;
    if clash {
        return Ok(Err(MooError::InvalidArgument));
    }
    adopt(alloc, view, object, family.as_slice(), parent)?;
    Ok(Ok(Value::integer(0)))
}

// Why an object may not go below a parent, but for clashes of properties.
fn refusal<V: View>(
    alloc: Global,
    view: &mut V,
    programmer: i32,
    object: i32,
    parent: i32,
) -> Result<Option<MooError>, AllocError>
    requires home { V.holds view.old (V.home view.old) }
    requires well_formed { AreAgreeing V.holds V.now view.old }
    ensures lasts { Lasts V.holds V.home V.anchor view.old view.new result }
    ensures left { IfOk result (λ e. Tells V.holds V.now view.old view.new
        (λ w. verdict (parent_checks w programmer object parent) ≡ option_map code_of e)) }
{
    let there = are_there(view, object, parent)?;
    if !there {
        return Ok(Some(MooError::InvalidArgument));
    }
    let allowed = may_both(
        view,
        programmer,
        &Act::ChangeObject(object),
        &Act::HaveChild(parent),
    )?;
    if !allowed {
        return Ok(Some(MooError::PermissionDenied));
    }
    let circular = is_below(alloc, view, object, parent)?;
    if circular {
        return Ok(Some(MooError::RecursiveMove));
    }
    Ok(None)
}

// An object, which with all below it is this family, goes below a parent, unless it is there.
fn adopt<V: View>(
    alloc: Global,
    view: &mut V,
    object: i32,
    family: &[i32],
    parent: i32,
) -> Result<(), AllocError>
    requires home { V.holds view.old (V.home view.old) }
    requires well_formed { AreAgreeing V.holds V.now view.old }
    ensures lasts { Lasts V.holds V.home V.anchor view.old view.new result }
    ensures left { OnOk result (Goes V.holds V.now view.old view.new (λ was is. IsFamily was object family.now → is ≡ adopted was object parent)) }
{
    let before = parent_of(view, object)?;
    if before == parent {
        return Ok(());
    }
    reparent(alloc, view, object, family, before, parent)
}

// The parent of an object, -1 where it has none or is not there.
fn parent_of<V: View>(view: &mut V, object: i32) -> Result<i32, AllocError>
    ensures lasts { Lasts V.holds V.home V.anchor view.old view.new result }
    ensures left { IfOk result (λ p. Tells V.holds V.now view.old view.new (λ w. parent_in (object_at w object) ≡ p)) }
{
    match read_header(view, object)? {
        Some(header) => Ok(header.parent),
        None => Ok(-1),
    }
}
