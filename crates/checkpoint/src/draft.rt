//! A draft of a world, from the lines of a text.
ghost use Rattle.std.specs.Prelude.{◌≡◌, [], Some};
ghost use Rattle.spec_world.specs.World as meant;
ghost use Rattle.spec_world.specs.Checkpoint.{world_lines};
ghost use Rattle.spec_faults.specs.Awaited.{whole};
ghost use Rattle.checkpoint_lines.specs.Rows.{Left, Reads};
ghost use Rattle.checkpoint_lines.specs.Told.{Ends};
ghost use Rattle.checkpoint.specs.Readable.{IsReadable};

use checkpoint_lines::fault::DecodeError;
use checkpoint_lines::lines::Lines;
use draft_lines::{read_front, read_links, read_objects};
use draft_tasks::read_tasks;
use object_lines::ahead::ObjectsAhead;
use std::alloc::Global;
use world::draft::Draft;

/// A draft of all lines, of whose objects some may have been read before their turn. None where no line has a fault and yet no world is so.
pub fn next_draft<'a>(
    alloc: Global,
    lines: &mut Lines<'a>,
    ahead: Vec<ObjectsAhead<'a>>,
) -> Result<Option<Draft>, DecodeError>
    ensures reads { (w : meant.World) → IsReadable w → Left lines.old (world_lines w) → Reads result lines.new [] (λ d. d ≡ Some w) }
    ensures tells { Ends result lines.old lines.new whole }
{
    let mut draft = Draft::empty(alloc);
    read_front(alloc, lines, &mut draft)?;
    read_links(alloc, lines, &mut draft)?;
    let has_objects = read_objects(alloc, lines, &mut draft, ahead)?;
    let has_tasks = read_tasks(alloc, lines, &mut draft)?;
    lines.end(alloc)?;
    if has_objects && has_tasks {
        Ok(Some(draft))
    } else {
        Ok(None)
    }
}
