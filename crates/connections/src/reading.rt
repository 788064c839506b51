//! The thread that reads a socket.
ghost use Rattle.std.specs.Prelude.{◌≡◌, ◌++◌, ◌∷◌, [], true, IfSome};
ghost use Rattle.connections.specs.Lines.{lines_sent, SameSender, FromSender};

use crate::lines::{LineSender, Sent};
use crate::shared::Shared;
use std::alloc::Global;
use std::io;
use std::io::Read;
use std::sync::Wait;
use std::thread::Parker;
use telnet_line::{Event, Reader};

/// The most bytes of a read.
const PIECE: usize = 4096;

/// Reads the socket to its end, sends its lines and writes its replies. Gives all that it sent.
pub(crate) fn read_link<R: Wait>(
    rt: &R,
    alloc: Global,
    shared: &Shared,
    bell: &Parker,
    mut sender: LineSender,
) -> Option<Sent>
    ensures { IfSome result (λ s. FromSender sender s) }
{
    read_all(rt, alloc, shared, bell, &mut sender);
    let sent = sender.finish();
    shared.set_done();
    bell.unpark();
    sent
}

// Reads until the socket ends, a read or a write fails, memory runs out or the link is cut.
fn read_all<R: Wait>(rt: &R, alloc: Global, shared: &Shared, bell: &Parker, sender: &mut LineSender)
    ensures { SameSender sender.old sender.new }
{
    let mut socket = &shared.socket;
    let mut reader = Reader::new(alloc);
    let mut piece = [0u8; PIECE];
    'piece: for _ in rt.forever() {
        let count = match socket.read(&mut piece) {
            Ok(count) => count,
            Err(error) if error.kind() == io::ErrorKind::Interrupted => continue,
            Err(_) => return,
        };
        if count == 0 {
            return;
        }
        let Ok(events) = reader.feed(alloc, &piece[..count]) else {
            return;
        };
        if !pass_all(rt, shared, bell, sender, events) {
            return;
        }
    }
}

// Sends the lines and writes the replies. Whether the link goes on.
fn pass_all<R: Wait>(
    rt: &R,
    shared: &Shared,
    bell: &Parker,
    sender: &mut LineSender,
    events: Vec<Event>,
) -> bool
    ensures { SameSender sender.old sender.new }
{
    'event: for event in events {
        let goes_on = match event {
            Event::Line(line) => pass(rt, shared, bell, sender, line),
            Event::Reply(bytes) => shared.write(rt, bytes.as_slice()).is_ok(),
        };
        if !goes_on {
            return false;
        }
    }
    true
}

// Sends a line, and waits while the ring is full. Whether it was sent: a link that is cut has no use for it.
fn pass<R: Wait>(
    rt: &R,
    shared: &Shared,
    bell: &Parker,
    sender: &mut LineSender,
    mut line: String,
) -> bool
    ensures same { SameSender sender.old sender.new }
    ensures sent { result ≡ true → lines_sent sender.new ≡ lines_sent sender.old ++ line ∷ [] }
{
    'again: for _ in rt.forever() {
        match sender.send(line) {
            Ok(()) => {
                bell.unpark();
                return true;
            }
            Err(back) => line = back,
        }
        if shared.is_cut() {
            return false;
        }
        shared.room.park(rt);
    }
    false
}
