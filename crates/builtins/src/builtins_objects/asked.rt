//! What is asked of a world before its objects are changed.
ghost use Rattle.std.specs.Prelude.{◌≡◌, ◌&&◌, ◌||◌, pos, neg_ℤ, is_some, IfOk};
ghost use Rattle.std.specs.Ordering.{int_eq};
ghost use Rattle.spec_world.specs.World.{object_at};
ghost use Rattle.spec_world.specs.Families.{is_below as is_below_of};
ghost use Rattle.spec_world.specs.Permissions.{may as may_of};
ghost use Rattle.rules.specs.Lines.{AreAgreeing};
ghost use Rattle.rules.specs.Acts.{act_of};
ghost use Rattle.view.specs.Law.{Lasts, Tells};

use rules::inherit::line::ancestors;
use rules::permissions::act::Act;
use rules::permissions::may::may;
use rules::relatives::lists::is_among;
use std::alloc::{AllocError, Global};
use view::law::View;
use view::readers::read_header;

/// Whether an object is there.
pub fn is_there<V: View>(view: &mut V, object: i32) -> Result<bool, AllocError>
    ensures lasts { Lasts V.holds V.home V.anchor view.old view.new result }
    ensures left { IfOk result (λ b. Tells V.holds V.now view.old view.new (λ w. is_some (object_at w object) ≡ b)) }
{
    let header = read_header(view, object)?;
    Ok(header.is_some())
}

/// Whether a number is that of no object, -1, or of one that is there.
pub fn is_place<V: View>(view: &mut V, object: i32) -> Result<bool, AllocError>
    ensures lasts { Lasts V.holds V.home V.anchor view.old view.new result }
    ensures left { IfOk result (λ b. Tells V.holds V.now view.old view.new (λ w. (int_eq object (neg_ℤ (pos 1)) || is_some (object_at w object)) ≡ b)) }
{
    let header = read_header(view, object)?;
    Ok(object == -1 || header.is_some())
}

/// Whether an object is there, and another one, or -1 in its place.
pub fn are_there<V: View>(view: &mut V, object: i32, place: i32) -> Result<bool, AllocError>
    requires home { V.holds view.old (V.home view.old) }
    ensures lasts { Lasts V.holds V.home V.anchor view.old view.new result }
    ensures left { IfOk result (λ b. Tells V.holds V.now view.old view.new
        (λ w. (is_some (object_at w object) && (int_eq place (neg_ℤ (pos 1)) || is_some (object_at w place))) ≡ b)) }
{
    if !is_there(view, object)? {
        return Ok(false);
    }
    is_place(view, place)
}

/// Whether a programmer may do two things.
pub fn may_both<V: View>(
    view: &mut V,
    who: i32,
    first: &Act,
    second: &Act,
) -> Result<bool, AllocError>
    requires home { V.holds view.old (V.home view.old) }
    ensures lasts { Lasts V.holds V.home V.anchor view.old view.new result }
    ensures left { IfOk result (λ b. Tells V.holds V.now view.old view.new
        (λ w. (may_of w who (act_of first.now) && may_of w who (act_of second.now)) ≡ b)) }
{
    if !may(view, who, first)? {
        return Ok(false);
    }
    may(view, who, second)
}

/// Whether an object is another one, or below it.
pub fn is_below<V: View>(
    alloc: Global,
    view: &mut V,
    object: i32,
    lower: i32,
) -> Result<bool, AllocError>
    requires home { V.holds view.old (V.home view.old) }
    requires well_formed { AreAgreeing V.holds V.now view.old }
    ensures lasts { Lasts V.holds V.home V.anchor view.old view.new result }
    ensures left { IfOk result (λ b. Tells V.holds V.now view.old view.new (λ w. is_below_of w object lower ≡ b)) }
{
    let line = ancestors(alloc, view, lower)?;
    let found = is_among(line.as_slice(), &object);
    Ok(found)
}
