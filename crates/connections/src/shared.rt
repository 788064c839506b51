//! What the server's loop and the two threads of a link share.
use crate::backlog::Backlog;
use std::alloc::Global;
use std::collections::VecDeque;
use std::io;
use std::io::Write;
use std::net::{Shutdown, TcpStream};
use std::sync::atomic::{AtomicBool, Ordering};
use std::sync::{Mutex, MutexGuard, Wait};
use std::thread::Parker;

/// A socket, and what tells the threads on it to go on or to end. A flag is set before the thread that waits for it is woken.
#[derive(Drop)]
pub(crate) struct Shared {
    pub socket: TcpStream,
    /// The thread that reads waits here for room in its ring.
    pub room: Parker,
    /// The thread that writes waits here for lines.
    pub told: Parker,
    // Held while bytes are written.
    turn: Mutex<()>,
    // The lines for which the ring had no room.
    backlog: Mutex<Backlog>,
    // Whether there are such lines. None is put into the ring meanwhile.
    behind: AtomicBool,
    // The thread that writes has written since the loop asked.
    written: AtomicBool,
    // The thread that reads is about to end.
    done: AtomicBool,
    // The thread that writes is about to end.
    gone: AtomicBool,
    // The loop tells no line any more.
    closing: AtomicBool,
    // Nothing is read or written any more.
    cut: AtomicBool,
}

impl Shared {
    pub fn new(alloc: Global, socket: TcpStream) -> Shared {
        Shared {
            socket,
            room: Parker::new(),
            told: Parker::new(),
            turn: Mutex::new(()),
            backlog: Mutex::new(Backlog::new(alloc)),
            behind: AtomicBool::new(false),
            written: AtomicBool::new(false),
            done: AtomicBool::new(false),
            gone: AtomicBool::new(false),
            closing: AtomicBool::new(false),
            cut: AtomicBool::new(false),
        }
    }

    /// Whether no line comes any more but those that are in the ring.
    pub fn is_done(&self) -> bool {
        self.done.load(Ordering::SeqCst)
    }

    pub fn set_done(&self) {
        self.done.store(true, Ordering::SeqCst);
    }

    /// Whether nothing is written any more.
    pub fn is_gone(&self) -> bool {
        self.gone.load(Ordering::SeqCst)
    }

    pub fn set_gone(&self) {
        self.gone.store(true, Ordering::SeqCst);
    }

    /// Whether lines wait behind the ring. The loop alone adds some, and the thread that writes takes them when the ring is empty.
    pub fn is_behind(&self) -> bool {
        self.behind.load(Ordering::SeqCst)
    }

    /// Has lines wait behind the ring and those that wait there. Whether they may.
    pub fn put_behind<R: Wait>(&self, rt: &R, lines: VecDeque<String>) -> bool {
        let mut backlog = self.backlog.lock(rt);
        let may_wait = backlog.add(lines);
        self.behind.store(true, Ordering::SeqCst);
        may_wait
    }

    /// The lines that wait behind the ring.
    pub fn backlog<R: Wait>(&self, rt: &R) -> MutexGuard<'_, Backlog> {
        self.backlog.lock(rt)
    }

    /// No line waits behind the ring any more. The backlog is locked.
    pub fn set_caught_up(&self) {
        self.behind.store(false, Ordering::SeqCst);
    }

    /// Whether something was written since this was asked.
    pub fn has_written(&self) -> bool {
        self.written.swap(false, Ordering::SeqCst)
    }

    pub fn set_written(&self) {
        self.written.store(true, Ordering::SeqCst);
    }

    /// Whether no line is told any more but those that wait.
    pub fn is_closing(&self) -> bool {
        self.closing.load(Ordering::SeqCst)
    }

    /// Has the thread that writes end when it has written what it was told.
    pub fn close(&self) {
        self.closing.store(true, Ordering::SeqCst);
        self.told.unpark();
    }

    pub fn is_cut(&self) -> bool {
        self.cut.load(Ordering::SeqCst)
    }

    /// Ends both threads, also where they wait for the other side of the socket.
    pub fn cut(&self) {
        self.cut.store(true, Ordering::SeqCst);
        let _ = self.socket.shutdown(Shutdown::Both);
        self.room.unpark();
        self.told.unpark();
    }

    /// Writes all bytes, with no others between them.
    pub fn write<R: Wait>(&self, rt: &R, bytes: &[u8]) -> io::Result<()> {
        let _turn = self.turn.lock(rt);
        let mut socket = &self.socket;
        socket.write_all(bytes)
    }
}
