//! Lists that are kept with the newest item last.

ghost use Rattle.std.specs.Prelude.{◌≡◌, ◌∷◌, reverse, OnOk};
ghost use Rattle.reader_frames.specs.ListView.{Takes, first};

use std::alloc::AllocError;

/// One more at the end.
#[tactic(auto, using(crate::proofs::Kept::one_newer))]
#[inline(always)]
pub fn put<T: Drop>(list: &mut Vec<T>, item: T) -> Result<(), AllocError>
    ensures { OnOk result (reverse list.new.items ≡ item ∷ reverse list.old.items) }
{
    list.reserve(1)?;
    list.push_reserved(item);
    Ok(())
}

/// Takes the last one.
#[tactic(auto, using(crate::proofs::Kept::one_newer, crate::proofs::Kept::none_kept))]
#[inline(always)]
pub fn take<T>(list: &mut Vec<T>) -> Option<T>
    ensures { Takes (reverse list.old.items) result (reverse list.new.items) }
{
    let Some(item) = list.pop() else {
        return None;
    };
    Some(item)
}

/// The last one.
#[tactic(auto, using(crate::proofs::Kept::newest))]
#[inline(always)]
pub fn newest<T: Copy>(list: &Vec<T>) -> Option<T>
    ensures { result ≡ first (reverse list.now.items) }
{
    list.last().copied()
}
