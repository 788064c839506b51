//! From a text to a tree that it may spell.
use crate::reader::Reader;
use crate::room::Room;
use crate::statement::read_block;
use moo_tree::statement::Tree;
use std::alloc::AllocError;
use std::mem;

/// A tree that a text may spell, if one is quickly found. Nothing is promised of it.
///
/// An `Err` says that memory ran out.
pub fn guess(room: &mut Room, text: &[u8]) -> Result<Option<Tree>, AllocError> {
    let alloc = room.alloc;
    let taken = mem::replace(room, Room::new(alloc));
    let mut reader = Reader::new(taken, text);
    read_block(&mut reader, 0);
    let found = reader.take_tree()?;
    if found.is_some() {
        *room = reader.into_room();
    }
    Ok(found)
}
