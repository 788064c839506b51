//! The thread that writes a socket.
ghost use Rattle.std.specs.Prelude.{◌≡◌, ◌++◌, ◌∷◌, [], OnOk};
ghost use Rattle.std.specs.String.{string_bytes};

use crate::backlog::Backlog;
use crate::lines::LineTaker;
use crate::shared::Shared;
use bytes::BytesMut;
use std::alloc::{AllocError, Global};
use std::sync::Wait;
use std::thread::Parker;

/// A write is given no further line once it has so many bytes.
const ENOUGH: usize = 65_536;

/// The most lines of a write.
const MOST_LINES: usize = 1024;

/// Writes the lines of the ring and those behind it to the socket, each with its end, until the loop tells none any more or the link is cut. It rings the bell
/// when no line waits behind the ring any more, and at the end.
pub(crate) fn write_link<R: Wait>(
    rt: &R,
    alloc: Global,
    shared: &Shared,
    bell: &Parker,
    mut taker: LineTaker,
) {
    write_all(rt, alloc, shared, bell, &mut taker);
    shared.cut();
    shared.set_gone();
    bell.unpark();
}

// Writes until there is nothing more to write, a write fails, memory runs out or the link is cut.
fn write_all<R: Wait>(
    rt: &R,
    alloc: Global,
    shared: &Shared,
    bell: &Parker,
    taker: &mut LineTaker,
) {
    let mut buffer = BytesMut::new(alloc);
    'turn: for _ in rt.forever() {
        if shared.is_cut() {
            return;
        }
        // What was told before the link was closed waits by now.
        let closing = shared.is_closing();
        if gather(rt, shared, bell, taker, &mut buffer).is_err() {
            return;
        }
        if buffer.is_empty() {
            if closing {
                return;
            }
            shared.told.park(rt);
            continue;
        }
        if shared.write(rt, buffer.as_slice()).is_err() {
            return;
        }
        shared.set_written();
        buffer.clear();
    }
}

// Takes lines until there are none, or enough.
fn gather<R: Wait>(
    rt: &R,
    shared: &Shared,
    bell: &Parker,
    taker: &mut LineTaker,
    buffer: &mut BytesMut,
) -> Result<(), AllocError> {
    // Where lines wait behind the ring, none is put into it until they were taken: when it is empty they are next.
    let are_behind = shared.is_behind();
    if gather_ring(taker, buffer)? && are_behind {
        gather_behind(rt, shared, bell, buffer)?;
    }
    Ok(())
}

// Takes lines of the ring until there are none, or enough. Whether there are none.
fn gather_ring(taker: &mut LineTaker, buffer: &mut BytesMut) -> Result<bool, AllocError> {
    'line: for _ in 0..MOST_LINES {
        if buffer.len() >= ENOUGH {
            return Ok(false);
        }
        let Some(line) = taker.take() else {
            return Ok(true);
        };
        put_line(buffer, &line)?;
    }
    Ok(false)
}

// Takes lines behind the ring, which is empty, until there are none, or enough. Where there are none, the link is caught up.
fn gather_behind<R: Wait>(
    rt: &R,
    shared: &Shared,
    bell: &Parker,
    buffer: &mut BytesMut,
) -> Result<(), AllocError> {
    let mut guard = shared.backlog(rt);
    let backlog = &mut *guard;
    gather_backlog(backlog, buffer)?;
    if backlog.is_done() {
        shared.set_caught_up();
        bell.unpark();
    }
    Ok(())
}

fn gather_backlog(backlog: &mut Backlog, buffer: &mut BytesMut) -> Result<(), AllocError> {
    'line: for _ in 0..MOST_LINES {
        if buffer.len() >= ENOUGH {
            return Ok(());
        }
        let Some(line) = backlog.take() else {
            return Ok(());
        };
        put_line(buffer, &line)?;
    }
    Ok(())
}

// A line with its end, CR LF.
fn put_line(buffer: &mut BytesMut, line: &String) -> Result<(), AllocError>
    ensures { OnOk result (buffer.new.items ≡ buffer.old.items ++ (string_bytes line.now ++ 13 ∷ 10 ∷ [])) }
{
    buffer.extend_from_slice(line.as_bytes())?;
    buffer.extend_from_slice(b"\r\n")
}
