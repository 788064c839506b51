//! The world of a file.
ghost use Rattle.std.specs.Prelude.{◌≡◌, IfOk, IsOkAnd};
ghost use Rattle.spec_world.specs.World as meant;
ghost use Rattle.spec_world.specs.Checkpoint.{checkpoint_text};
ghost use Rattle.checkpoint.specs.Readable.{IsReadable};

use crate::decode::decode_by_threads;
use checkpoint_lines::fault::DecodeError;
use std::alloc::{AllocError, Global};
use std::rt::Files;
use std::thread::Threads;
use std::{fs, io};
use world::worlds::World;

/// The world whose text a file holds. A file that cannot be read, or that holds no world's text, gives the line of its fault: `cannot read FILE`, or
/// `world: line K: NAME`.
pub fn read_world_file<R: AllocGlobal + Files + Threads + Sync>(
    rt: &R,
    name: &str,
) -> Result<Result<World, String>, AllocError> {
    let alloc = rt.alloc();
    match fs::read(rt, name) {
        Ok(text) => world_of(rt, alloc, text.as_slice()),
        Err(error) if error.kind() == io::ErrorKind::OutOfMemory => Err(AllocError),
        Err(_) => Ok(Err(format!(in alloc; "cannot read {name}")?)),
    }
}

/// The world of a text, or the line of the text's fault.
pub fn world_of<R: Threads + Sync>(
    rt: &R,
    alloc: Global,
    text: &[u8],
) -> Result<Result<World, String>, AllocError>
    ensures text { IfOk result (λ read. IfOk read (λ world. text.now ≡ checkpoint_text world.plain)) }
    ensures finds { (w : meant.World) → IsReadable w → text.now ≡ checkpoint_text w → IfOk result (λ read. IsOkAnd read (λ world. world.plain ≡ w)) }
{
    match decode_by_threads(rt, alloc, text) {
        Ok(world) => Ok(Ok(world)),
        Err(DecodeError::Memory(error)) => Err(error),
        Err(fault) => Ok(Err(format!(in alloc; "world: {fault}")?)),
    }
}
