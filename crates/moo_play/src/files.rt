//! What the words name: files, and the standard input.
use checkpoint::world_files::reading::read_world_file;
use checkpoint_text::by_threads::encode_by_threads;
use moo_server::command_line::cannot_read;
use moo_server::fixture::fixture;
use std::alloc::AllocError;
use std::io::Read;
use std::rt::Files;
use std::thread::Threads;
use std::{fs, io};
use whole_files::writing::write_file;
use world::worlds::World;

/// The fixture, or the world of a file. A file that cannot be read, and one that is no world's text, give the line of that fault.
pub fn read_world<R: AllocGlobal + Files + Threads + Sync>(
    rt: &R,
    name: &str,
) -> Result<Result<World, String>, AllocError> {
    if name == "fixture" {
        return Ok(Ok(fixture(rt.alloc())?));
    }
    read_world_file(rt, name)
}

/// Writes the text of a world into a file.
pub fn write_world<R: AllocGlobal + Files + Threads + Sync>(
    rt: &R,
    name: &str,
    world: &World,
) -> io::Result<()> {
    let snapshot = world.snapshot()?;
    let text = encode_by_threads(rt, rt.alloc(), &snapshot)?;
    write_file(rt, name, text.as_str().as_bytes())
}

/// All bytes of a script, from a file or, at the word `stdin`, the standard input. A script that cannot be read gives the line of that fault.
pub fn read_script<R: Input + AllocGlobal + Files>(
    rt: &R,
    name: &str,
) -> Result<Result<Vec<u8>, String>, AllocError> {
    let read = if name == "stdin" {
        read_input(rt)
    } else {
        fs::read(rt, name)
    };
    match read {
        Ok(script) => Ok(Ok(script)),
        Err(error) if error.kind() == io::ErrorKind::OutOfMemory => Err(AllocError),
        Err(_) => Ok(Err(cannot_read(rt.alloc(), name)?)),
    }
}

fn read_input<R: Input + AllocGlobal>(rt: &R) -> io::Result<Vec<u8>> {
    let mut bytes = Vec::new(rt.alloc());
    let mut reader = rt.reader();
    reader.read_to_end(&mut bytes)?;
    Ok(bytes)
}
