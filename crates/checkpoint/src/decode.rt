//! A world from its text.
ghost use Rattle.std.specs.Prelude.{◌≡◌, ◌<◌, ◌^◌, Some, None, IsSomeAnd, IfOk, IfSome, length};
ghost use Rattle.spec_world.specs.World as meant;
ghost use Rattle.spec_world.specs.Checkpoint.{checkpoint_text};
ghost use Rattle.spec_faults.specs.Cutting.{lines_of};
ghost use Rattle.spec_faults.specs.Faults.{first_fault};
ghost use Rattle.view.specs.Sound.{IsSound};
ghost use Rattle.checkpoint_lines.specs.declared.fault.DecodeError.TheVariants.{Line};
ghost use Rattle.checkpoint_lines.specs.declared.fault.FaultKind.TheVariants as kind;
ghost use Rattle.checkpoint_lines.specs.Gives.{Gives};
ghost use Rattle.checkpoint_lines.specs.Told.{HasRoom};
ghost use Rattle.checkpoint.specs.Readable.{IsReadable};
ghost use Rattle.checkpoint.specs.Faulty.{TellsFirst};

use crate::compare::{compared, compared_by_threads};
use crate::draft::next_draft;
use checkpoint_lines::fault::{DecodeError, FaultKind};
use checkpoint_lines::lines::Lines;
use object_lines::ahead::ObjectsAhead;
use object_lines::pieces::read_ahead;
use std::alloc::{AllocError, Global};
use std::thread::Threads;
use world::draft::Draft;
use world::worlds::World;
use world_checks::sound::is_sound;

/// The world whose text the bytes are.
///
/// An `Err` tells the first faulty line with the least of its faults, or that memory ran out. A text without other faults
/// that no well-formed world of values has is told at its last line. Of the text of a world that is readable the only `Err`
/// is that memory ran out.
pub fn decode(alloc: Global, bytes: &[u8]) -> Result<World, DecodeError>
    ensures text { IfOk result (λ w. bytes.now ≡ checkpoint_text w.plain) }
    ensures opened { IfOk result (λ w. w.opened ≡ 0) }
    ensures finds { (w : meant.World) → IsReadable w → bytes.now ≡ checkpoint_text w → Gives result (λ x. x.plain ≡ w) }
    ensures fault { TellsFirst result bytes.now }
{
    let mut lines = Lines::new(bytes);
    let found = next_world(alloc, &mut lines, Vec::new(alloc))?;
    let world = compared(alloc, found, bytes)?;
    match world {
        Some(world) => Ok(world),
        None => Err(world_fault(&lines)),
    }
}

/// The same, where several threads read objects, and compare their text.
pub fn decode_by_threads<R: Threads + Sync>(
    rt: &R,
    alloc: Global,
    bytes: &[u8],
) -> Result<World, DecodeError>
    ensures text { IfOk result (λ w. bytes.now ≡ checkpoint_text w.plain) }
    ensures opened { IfOk result (λ w. w.opened ≡ 0) }
    ensures finds { (w : meant.World) → IsReadable w → bytes.now ≡ checkpoint_text w → Gives result (λ x. x.plain ≡ w) }
    ensures fault { TellsFirst result bytes.now }
{
    let ahead = read_ahead(rt, alloc, bytes);
    let mut lines = Lines::new(bytes);
    let found = next_world(alloc, &mut lines, ahead)?;
    let world = compared_by_threads(rt, alloc, found, bytes)?;
    match world {
        Some(world) => Ok(world),
        None => Err(world_fault(&lines)),
    }
}

// The fault of a text of which no line has a fault, and that no world has: it is told at the last line.
fn world_fault(lines: &Lines<'_>) -> DecodeError
    ensures { result ≡ Line lines.now.count kind.World }
{
    lines.fault(FaultKind::World)
}

// The world of all lines of a text, of whose objects some may have been read before their turn. None where no line has a fault and yet no sound world is so.
fn next_world<'a>(
    alloc: Global,
    lines: &mut Lines<'a>,
    ahead: Vec<ObjectsAhead<'a>>,
) -> Result<Option<World>, DecodeError>
    requires none { lines.old.count ≡ 0 }
    requires room { HasRoom lines.old }
    ensures opened { IfOk result (λ o. IfSome o (λ w. w.opened ≡ 0)) }
    ensures finds { (w : meant.World) → IsReadable w → lines.old.left.now ≡ checkpoint_text w → Gives result (λ o. IsSomeAnd o (λ x. x.plain ≡ w)) }
    ensures fault { TellsFirst result lines.old.left.now }
    ensures faultless { IfOk result (λ _. first_fault lines.old.left.now ≡ None) }
    ensures count { IfOk result (λ _. lines.new.count ≡ length (lines_of lines.old.left.now).lines) }
{
    let draft = next_draft(alloc, lines, ahead)?;
    let world = sound_world(alloc, draft)?;
    Ok(world)
}

// A draft as a world, if there is a draft, and it is sound.
fn sound_world(alloc: Global, draft: Option<Draft>) -> Result<Option<World>, AllocError>
    ensures plain { IfOk result (λ o. IfSome o (λ w. draft ≡ Some w.plain)) }
    ensures opened { IfOk result (λ o. IfSome o (λ w. w.opened ≡ 0)) }
    ensures finds { (w : meant.World) → draft ≡ Some w → IsSound w → IfOk result (λ o. IsSomeAnd o (λ x. x.plain ≡ w)) }
{
    let Some(draft) = draft else {
        return Ok(None);
    };
    let sound = is_sound(alloc, &draft)?;
    if sound {
        Ok(Some(World::of_draft(draft)))
    } else {
        Ok(None)
    }
}
