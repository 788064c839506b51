//! What is known of objects (Programmer's Manual, "Fundamental Operations on Objects").
ghost use Rattle.std.specs.Prelude.{◌≡◌, ℤ, [], ◌∷◌, IfOk};
ghost use Rattle.spec_value.specs.Datum.{object as object_of};
ghost use Rattle.spec_moo.specs.Natives.Objects.{valid_row, is_player_row, parent_row, children_row, max_object_row};
ghost use Rattle.moo_value.specs.Answers.{answer_of};
ghost use Rattle.view.specs.Law.{Lasts, Tells};
ghost use Rattle.builtins_view.specs.Said.{Says};

use crate::builtins_world::values::objects_value;
use moo_value::answer::Answer;
use moo_value::error::MooError;
use moo_value::value::Value;
use std::alloc::{AllocError, Global};
use view::law::View;
use view::readers::{read_children, read_greatest, read_header};

/// `valid`: whether an object is there.
pub fn valid<V: View>(view: &mut V, object: i32) -> Result<Answer, AllocError>
    ensures lasts { Lasts V.holds V.home V.anchor view.old view.new result }
    ensures left { IfOk result (λ a. Tells V.holds V.now view.old view.new
        (λ w. (who : ℤ) → Says (λ s c. valid_row s c (object_of object ∷ [])) w who (answer_of a))) }
{
    let header = read_header(view, object)?;
    Ok(Ok(Value::truth(header.is_some())))
}

/// `is_player`. `E_INVARG` where the object is not there.
pub fn is_player<V: View>(view: &mut V, object: i32) -> Result<Answer, AllocError>
    ensures lasts { Lasts V.holds V.home V.anchor view.old view.new result }
    ensures left { IfOk result (λ a. Tells V.holds V.now view.old view.new
        (λ w. (who : ℤ) → Says (λ s c. is_player_row s c (object_of object ∷ [])) w who (answer_of a))) }
{
    match read_header(view, object)? {
        Some(header) => Ok(Ok(Value::truth(header.is_player))),
        None => Ok(Err(MooError::InvalidArgument)),
    }
}

/// `parent`: -1 where there is none. `E_INVARG` where the object is not there.
pub fn parent<V: View>(view: &mut V, object: i32) -> Result<Answer, AllocError>
    ensures lasts { Lasts V.holds V.home V.anchor view.old view.new result }
    ensures left { IfOk result (λ a. Tells V.holds V.now view.old view.new
        (λ w. (who : ℤ) → Says (λ s c. parent_row s c (object_of object ∷ [])) w who (answer_of a))) }
{
    match read_header(view, object)? {
        Some(header) => Ok(Ok(Value::object(header.parent))),
        None => Ok(Err(MooError::InvalidArgument)),
    }
}

/// `children`. `E_INVARG` where the object is not there.
pub fn children<V: View>(alloc: Global, view: &mut V, object: i32) -> Result<Answer, AllocError>
    ensures lasts { Lasts V.holds V.home V.anchor view.old view.new result }
    ensures left { IfOk result (λ a. Tells V.holds V.now view.old view.new
        (λ w. (who : ℤ) → Says (λ s c. children_row s c (object_of object ∷ [])) w who (answer_of a))) }
{
    match read_children(view, object)? {
        Some(children) => Ok(Ok(objects_value(alloc, children.as_slice())?)),
        None => Ok(Err(MooError::InvalidArgument)),
    }
}

/// `max_object`: the greatest number that an object has had.
pub fn max_object<V: View>(view: &mut V) -> Result<Answer, AllocError>
    ensures lasts { Lasts V.holds V.home V.anchor view.old view.new result }
    ensures left { IfOk result (λ a. Tells V.holds V.now view.old view.new
        (λ w. (who : ℤ) → Says (λ s c. max_object_row s c []) w who (answer_of a))) }
{
    let greatest = read_greatest(view)?;
    Ok(Ok(Value::object(greatest)))
}
