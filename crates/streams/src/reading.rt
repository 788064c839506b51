//! Reading whole streams.
ghost use Rattle.std.specs.Prelude.{◌≡◌, ◌+◌, ◌<◌, ◌≤◌, ℕ, List, true, false, length, map, [], IfOk, OnOk, IfErr};
ghost use Rattle.telnet_line.specs.Telnet as telnet;
ghost use Rattle.telnet_line.specs.Events.{events_given};
ghost use Rattle.streams.specs.Reads.{EachSpells, ReadPart, Rises, all_given};
ghost use Rattle.streams.specs.Refused.{OnFailed};

use crate::source::Source;
use std::alloc::{AllocError, Global};
use telnet_line::{Event, Reader};

/// The most bytes of a read.
const PIECE: usize = 4096;

/// Why a stream was not read.
#[derive(Clone, Copy, PartialEq, Eq, Debug)]
pub enum Unread {
    Memory,
    /// A read failed.
    Failed,
}

/// Reads a stream to its end: its lines and replies.
pub fn read_stream<S: Source>(alloc: Global, source: &mut S) -> Result<Vec<Event>, Unread>
    ensures spells { IfOk result (λ events. telnet.Spells (S.left source.old) (events_given events.items)) }
    ensures failed { IfErr result (λ e. e ≡ Unread.Failed → S.failures source.new ≡ S.failures source.old + 1) }
{
    let mut reader = Reader::new(alloc);
    let mut all = Vec::new(alloc);
    'piece: while read_piece(alloc, source, &mut reader, &mut all)? {}
    Ok(all)
}

/// Why the streams were not read, and the number of the one that failed, from 1 on.
#[derive(Clone, Copy, PartialEq, Eq, Debug)]
pub enum NotRead {
    Memory,
    Failed(usize),
}

/// Reads every stream to its end, in order.
pub fn read_streams<S: Source>(alloc: Global, sources: &mut [S]) -> Result<Vec<Vec<Event>>, NotRead>
    ensures spell { IfOk result (λ all. EachSpells (map S.left sources.old) (all_given all.items)) }
    ensures count { IfOk result (λ all. length all.items ≡ length sources.old) }
    ensures failed { IfErr result (λ e. OnFailed e (λ n. Rises n (map S.failures sources.old) (map S.failures sources.new))) }
{
    let mut all = Vec::new(alloc);
    'source: for at in 0..sources.len() {
        match read_stream(alloc, &mut sources[at]) {
            Ok(events) => {
                let Ok(()) = all.push(events) else {
                    return Err(NotRead::Memory);
                };
            }
            Err(Unread::Memory) => return Err(NotRead::Memory),
            Err(Unread::Failed) => return Err(NotRead::Failed(at + 1)),
        }
    }
    Ok(all)
}

// Reads a piece. Whether there was one: none at the end.
fn read_piece<S: Source>(
    alloc: Global,
    source: &mut S,
    reader: &mut Reader,
    all: &mut Vec<Event>,
) -> Result<bool, Unread>
    ensures part { OnOk result ((stream : List ℕ) →
        ReadPart stream (S.left source.old) (events_given all.old.items) reader.old → ReadPart stream (S.left source.new) (events_given all.new.items) reader.new) }
    ensures end { IfOk result (λ b. b ≡ false → S.left source.new ≡ []) }
    ensures less { IfOk result (λ b. b ≡ true → length (S.left source.new) < length (S.left source.old)) }
    ensures well { OnOk result (S.failures source.new ≡ S.failures source.old) }
    ensures failed { IfErr result (λ e. e ≡ Unread.Failed → S.failures source.new ≡ S.failures source.old + 1) }
{
    let mut piece = [0u8; PIECE];
    let Ok(count) = source.read(&mut piece) else {
        return Err(Unread::Failed);
    };
    if count == 0 {
        return Ok(false);
    }
    let Ok(mut events) = reader.feed(alloc, &piece[..count]) else {
        return Err(Unread::Memory);
    };
    match all.append(&mut events) {
        Ok(()) => Ok(true),
        Err(_) => Err(Unread::Memory),
    }
}
