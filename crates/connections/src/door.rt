//! The thread that accepts sockets.
use rtrb::{Consumer, Producer, PushError, RingBuffer};
use std::alloc::Global;
use std::net::{Shutdown, TcpListener, TcpStream};
use std::os::fd::OwnedFd;
use std::rt::Clock;
use std::sync::atomic::{AtomicBool, Ordering};
use std::sync::{Arc, Wait};
use std::thread;
use std::thread::{JoinHandle, Parker, Threads};
use std::time::Duration;

/// The most sockets that wait for the loop.
const MOST_WAITING: usize = 64;

/// How long the thread rests after an accept that failed, or where too many sockets wait already, in milliseconds.
const REST: u64 = 50;

/// A listener with the thread that accepts.
#[derive(Drop)]
pub struct Door {
    listener: TcpListener,
    shut: Arc<AtomicBool, Global>,
    accepted: Consumer<TcpStream, Global>,
    thread: JoinHandle<()>,
}

impl Door {
    /// Starts the thread. It rings the bell for each socket.
    pub fn start<R: Threads + Wait + Clock + Copy + Send + 'static>(
        rt: R,
        alloc: Global,
        listener: TcpListener,
        bell: &Arc<Parker, Global>,
    ) -> Option<Door> {
        let theirs = listener.try_clone().ok()?;
        let shut = Arc::new(alloc, AtomicBool::new(false)).ok()?;
        let told = Arc::try_clone(&shut).ok()?;
        let bell = Arc::try_clone(bell).ok()?;
        let (sockets, accepted) = RingBuffer::new(alloc, MOST_WAITING).ok()?;
        let job = move || accept_all(&rt, &theirs, &told, &bell, sockets);
        let thread = thread::spawn(&rt, job).ok()?;
        Some(Door {
            listener,
            shut,
            accepted,
            thread,
        })
    }

    /// The next socket, if one has come.
    pub fn take(&mut self) -> Option<TcpStream> {
        self.accepted.pop().ok()
    }

    /// Ends the thread. The sockets that wait still are closed.
    pub fn shut<R: Threads>(self, rt: &R) {
        let Door {
            listener,
            shut,
            accepted,
            thread,
        } = self;
        shut.store(true, Ordering::SeqCst);
        // Shutting the listener down ends an accept that waits.
        let _ = TcpStream::from(OwnedFd::from(listener)).shutdown(Shutdown::Both);
        thread.join(rt);
        drop(accepted);
    }
}

// Accepts until the door is shut. An accept that fails, as where no descriptor is left, is tried again.
fn accept_all<R: Wait + Clock>(
    rt: &R,
    listener: &TcpListener,
    shut: &AtomicBool,
    bell: &Parker,
    mut sockets: Producer<TcpStream, Global>,
) {
    'next: for _ in rt.forever() {
        if shut.load(Ordering::SeqCst) {
            return;
        }
        match listener.accept() {
            Ok((socket, _)) => {
                let _ = socket.set_nodelay(true);
                hand_over(rt, shut, &mut sockets, socket);
                bell.unpark();
            }
            Err(_) => thread::sleep(rt, Duration::from_millis(REST)),
        }
    }
}

// Hands the socket to the loop, and waits where too many wait already.
fn hand_over<R: Wait + Clock>(
    rt: &R,
    shut: &AtomicBool,
    sockets: &mut Producer<TcpStream, Global>,
    mut socket: TcpStream,
) {
    'again: for _ in rt.forever() {
        match sockets.push(socket) {
            Ok(()) => return,
            Err(PushError::Full(back)) => socket = back,
        }
        if shut.load(Ordering::SeqCst) {
            return;
        }
        thread::sleep(rt, Duration::from_millis(REST));
    }
}
