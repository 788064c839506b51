//! Ancestors.
ghost use Rattle.std.specs.Prelude.{◌≡◌, ℕ, negsuc, IfOk, MatchOption};
ghost use Rattle.spec_world.specs.Inherit.{ancestors as ancestors_of};
ghost use Rattle.view.specs.Law.{Lasts, Tells};
ghost use Rattle.rules.specs.Lines.{AreAgreeing, IsAbove, IsParentIn, IsParentNamed};

use std::alloc::{AllocError, Global};
use view::header::Header;
use view::law::View;
use view::readers::{read_header, read_parent};

/// An object, its parent, the parent's parent, and so on: empty for an object that is not there.
pub fn ancestors<V: View>(alloc: Global, view: &mut V, object: i32) -> Result<Vec<i32>, AllocError>
    requires home { V.holds view.old (V.home view.old) }
    requires well_formed { AreAgreeing V.holds V.now view.old }
    ensures lasts { Lasts V.holds V.home V.anchor view.old view.new result }
    ensures left { IfOk result (λ os. Tells V.holds V.now view.old view.new (λ w. ancestors_of w object ≡ os.items)) }
{
    let mut line = Vec::new(alloc);
    let mut next = Some(object);
    while let Some(at) = next {
        let header = read_header(view, at)?;
        if header.is_none() {
            return Ok(line);
        }
        line.push(at)?;
        next = parent_in(&header);
    }
    Ok(line)
}

/// The parent of an object, if there are both.
pub(crate) fn parent<V: View>(view: &mut V, object: i32) -> Result<Option<i32>, AllocError>
    requires { AreAgreeing V.holds V.now view.old }
    ensures lasts { Lasts V.holds V.home V.anchor view.old view.new result }
    ensures left { IfOk result (λ p. Tells V.holds V.now view.old view.new (λ w. IsAbove w object p)) }
{
    let named = read_parent(view, object)?;
    Ok(parent_named(named))
}

// The parent of the number that an object names.
#[inline(always)]
fn parent_named(named: Option<i32>) -> Option<i32>
    ensures { IsParentNamed named result }
{
    match named {
        Some(number) => not_negative(number),
        None => None,
    }
}

// The parent that a header names.
fn parent_in(header: &Option<Header>) -> Option<i32>
    ensures { IsParentIn header.now result }
{
    match header {
        Some(header) => not_negative(header.parent),
        None => None,
    }
}

/// The object of a number, unless that is negative: no object has such a one.
pub(crate) fn not_negative(object: i32) -> Option<i32>
    ensures { MatchOption result ((n : ℕ) × (object ≡ negsuc n)) (λ o. o ≡ object) }
{
    if object < 0 {
        return None;
    }
    Some(object)
}
