//! Worlds that are compared with the text that they were read from.
ghost use Rattle.std.specs.Prelude.{◌≡◌, ◌↔◌, Some, IfOk, IfSome, IsTrue};
ghost use Rattle.spec_world.specs.Checkpoint.{checkpoint_text};
ghost use Rattle.world.specs.Counted.{Counted};

use checkpoint_text::compare::is_text;
use checkpoint_text::compare_by_threads::is_text_by_threads;
use std::alloc::{AllocError, Global};
use std::thread::Threads;
use world::worlds::World;

/// A world, if there is one and the bytes are its text.
pub(crate) fn compared(
    alloc: Global,
    found: Option<World>,
    bytes: &[u8],
) -> Result<Option<World>, AllocError>
    ensures text { IfOk result (λ o. IfSome o (λ w. (found ≡ Some w) × (bytes.now ≡ checkpoint_text w.plain))) }
    ensures finds { (w : Counted) → found ≡ Some w → bytes.now ≡ checkpoint_text w.plain → IfOk result (λ o. o ≡ Some w) }
{
    let Some(world) = found else {
        return Ok(None);
    };
    let same = has_text(alloc, &world, bytes)?;
    if same { Ok(Some(world)) } else { Ok(None) }
}

// Whether bytes are the text of a world.
fn has_text(alloc: Global, world: &World, bytes: &[u8]) -> Result<bool, AllocError>
    ensures { IfOk result (λ same. IsTrue same ↔ bytes.now ≡ checkpoint_text world.now.plain) }
{
    let snapshot = world.snapshot()?;
    snapshot.know();
    let draft = snapshot.share()?;
    is_text(alloc, &draft, bytes)
}

/// The same, where several threads compare.
pub(crate) fn compared_by_threads<R: Threads + Sync>(
    rt: &R,
    alloc: Global,
    found: Option<World>,
    bytes: &[u8],
) -> Result<Option<World>, AllocError>
    ensures text { IfOk result (λ o. IfSome o (λ w. (found ≡ Some w) × (bytes.now ≡ checkpoint_text w.plain))) }
    ensures finds { (w : Counted) → found ≡ Some w → bytes.now ≡ checkpoint_text w.plain → IfOk result (λ o. o ≡ Some w) }
{
    let Some(world) = found else {
        return Ok(None);
    };
    let snapshot = world.snapshot()?;
    let same = is_text_by_threads(rt, alloc, &snapshot, bytes)?;
    if same { Ok(Some(world)) } else { Ok(None) }
}
