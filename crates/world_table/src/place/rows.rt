//! Rows of a block's places: how they are copied, and how far they go.
ghost use Rattle.std.specs.Prelude.{◌≡◌, ◌+◌, ◌<◌, ◌≤◌, ◌++◌, length, take, replicate, IfOk, OnOk, vec_len, vec_capacity};
ghost use Rattle.world_table.specs.Branch.{with_branch, nowhere, IsAlike};

use super::Place;
use std::alloc::{AllocError, Global};

/// The same branches, each with one more owner, save that one place has another branch.
pub fn copied_with<R: Drop>(
    alloc: Global,
    places: &[Place<R>],
    at: usize,
    branch: Place<R>,
) -> Result<Vec<Place<R>>, AllocError>
    requires { at < 32 }
    ensures { IfOk result (λ v. v.items ≡ with_branch at branch places.now) }
{
    let before = at.min(places.len());
    let mut copies = Vec::with_capacity(alloc, places.len().max(at + 1))?;
    share_onto(&mut copies, &places[..before])?;
    push_vacant(&mut copies, at - before);
    copies.push_reserved(branch);
    if at < places.len() {
        share_onto(&mut copies, &places[at + 1..])?;
    }
    Ok(copies)
}

/// The same branches, each with one more owner.
pub fn copied<R: Drop>(alloc: Global, places: &[Place<R>]) -> Result<Vec<Place<R>>, AllocError>
    ensures { IfOk result (λ v. v.items ≡ places.now) }
{
    let mut copies = Vec::with_capacity(alloc, places.len())?;
    share_onto(&mut copies, places)?;
    Ok(copies)
}

// Adds the same branches, each with one more owner, where there is room for them.
fn share_onto<R: Drop>(copies: &mut Vec<Place<R>>, places: &[Place<R>]) -> Result<(), AllocError>
    requires room { vec_len copies.old + length places.now ≤ vec_capacity copies.old }
    ensures items { OnOk result (copies.new.items ≡ copies.old.items ++ places.now) }
    ensures len { OnOk result (vec_len copies.new ≡ vec_len copies.old + length places.now) }
    ensures room { vec_capacity copies.new ≡ vec_capacity copies.old }
{
    for place in places {
        copies.push_reserved(place.share()?);
    }
    Ok(())
}

// Adds empty places, where there is room for them.
fn push_vacant<R: Drop>(places: &mut Vec<Place<R>>, count: usize)
    requires { vec_len places.old + count ≤ vec_capacity places.old }
    ensures items { places.new.items ≡ places.old.items ++ replicate count nowhere }
    ensures len { vec_len places.new ≡ vec_len places.old + count }
    ensures room { vec_capacity places.new ≡ vec_capacity places.old }
{
    for _place in 0..count {
        places.push_reserved(Place::nothing());
    }
}

/// Makes a row reach a place, by empty places where there were none. After an `Err` it is as it was.
pub fn widen<R: Drop>(places: &mut Vec<Place<R>>, at: usize) -> Result<(), AllocError>
    requires { at < 32 }
    ensures alike { IsAlike places.old.items places.new.items }
    ensures reaches { OnOk result (at < vec_len places.new) }
    ensures within { length places.old.items ≤ 32 → length places.new.items ≤ 32 }
{
    let count = places.len();
    if at >= count {
        let missing = at + 1 - count;
        places.reserve(missing)?;
        push_vacant(places, missing);
    }
    Ok(())
}

/// How many places there are as far as the last that is used.
pub fn used<R: Drop>(places: &[Place<R>]) -> usize
    ensures alike { IsAlike places.now (take result places.now) }
    ensures within { result ≤ length places.now }
{
    let mut count = places.len();
    while count > 0 && places[count - 1].is_nothing() {
        count -= 1;
    }
    count
}
