//! Lists of objects.
ghost use Rattle.std.specs.Prelude.{◌≡◌, ◌++◌, [], ◌∷◌, filter, not, IfOk};
ghost use Rattle.std.specs.Ordering.{int_eq};
ghost use Rattle.spec_world.specs.WellFormed.{lists};

use std::alloc::{AllocError, Global};
use view::lists::Objects;

/// Objects but for one.
pub fn without(alloc: Global, objects: &[i32], object: &i32) -> Result<Objects, AllocError>
    ensures { IfOk result (λ os. os ≡ filter (λ p. not (int_eq object.now p)) objects.now) }
{
    let mut others = Vec::with_capacity(alloc, objects.len())?;
    for other in objects {
        if !is_same(object, other) {
            others.push(*other)?;
        }
    }
    Objects::new(alloc, others)
}

/// Objects and one more, the last.
pub fn with_last(alloc: Global, objects: &[i32], object: i32) -> Result<Objects, AllocError>
    ensures { IfOk result (λ os. os ≡ objects.now ++ object ∷ []) }
{
    let mut all = Vec::with_capacity(alloc, objects.len())?;
    for other in objects {
        all.push(*other)?;
    }
    all.push(object)?;
    Objects::new(alloc, all)
}

/// Whether an object is among others.
pub fn is_among(objects: &[i32], object: &i32) -> bool
    ensures { result ≡ lists objects.now object.now }
{
    for other in objects {
        if is_same(object, other) {
            return true;
        }
    }
    false
}

fn is_same(first: &i32, second: &i32) -> bool
    ensures { result ≡ int_eq first.now second.now }
{
    *first == *second
}
