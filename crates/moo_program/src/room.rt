//! Vectors that grow.
ghost use Rattle.std.specs.Prelude.{◌≡◌, ◌<◌, ◌∷◌, ◌++◌, [], OnOk, vec_len, vec_capacity};

use std::alloc::AllocError;

/// One more at the end.
#[inline(always)]
pub fn put<T: Drop>(list: &mut Vec<T>, item: T) -> Result<(), AllocError>
    ensures { OnOk result (list.new.items ≡ list.old.items ++ item ∷ []) }
{
    if list.len() == list.capacity() {
        make_room(list)?;
    }
    list.push_reserved(item);
    Ok(())
}

// Room for some more.
#[cold]
#[inline(never)]
fn make_room<T>(list: &mut Vec<T>) -> Result<(), AllocError>
    ensures items { list.new.items ≡ list.old.items }
    ensures room { OnOk result (vec_len list.new < vec_capacity list.new) }
{
    list.reserve(1)?;
    Ok(())
}
