//! One link: a socket with its two threads and its two rings.
ghost use Rattle.std.specs.Prelude.{◌≡◌, ◌++◌, ◌∷◌, [], ◌⊎◌, ◌≢◌, IfSome, IfOk, IfErr, OnOk, OnErr};
ghost use Rattle.std.specs.Option.{ForSome};
ghost use Rattle.connections.specs.Lines.{lines_sent, IsRing, IsSentOf, IsSent, IsKept, IsLost, SameTaker, FromSender};

use crate::lines::{LineSender, LineTaker, Sent, lines};
use crate::reading::read_link;
use crate::shared::Shared;
use crate::writing::write_link;
use std::alloc::{AllocError, Global};
use std::collections::VecDeque;
use std::net::TcpStream;
use std::snapshot::Snapshot;
use std::sync::{Arc, Wait};
use std::thread::{JoinHandle, Parker, Promise, PromisedHandle, Threads};
use std::{mem, thread};

/// The most lines that wait between a socket and the loop.
pub const INPUT_LINES: usize = 64;

/// The most lines of the ring between the loop and a socket.
pub const OUTPUT_LINES: usize = 1024;

/// How many seconds a link may write nothing while lines wait behind its ring.
const PATIENCE: u64 = 3;

/// Why a socket got no link.
#[derive(Clone, Copy, PartialEq, Eq, Debug)]
pub enum Refusal {
    Memory,
    /// There are as many links as there may be.
    Full,
    /// A thread could not be started.
    Thread,
}

/// What has come from a link.
#[derive(Drop)]
pub enum Input {
    /// Its next line.
    Line(String),
    /// No line yet.
    Nothing,
    /// No line any more: all that it sent were taken.
    End,
}

// All that the reading thread sent is of this taker's ring.
#[derive(Drop)]
struct OfTaker(Snapshot<LineTaker>);

impl Promise<Option<Sent>> for OfTaker {
    ghost kept_by = { λ p r. IfSome r (λ s. IsSentOf s p.0.value) };
}

/// A socket with its threads.
#[derive(Drop)]
pub(crate) struct Link {
    shared: Arc<Shared, Global>,
    input: LineTaker,
    // Until it has been waited for.
    reading: Option<PromisedHandle<Option<Sent>, OfTaker>>,
    output: LineSender,
    // The lines told since the last flush for which the ring had no room.
    beyond: VecDeque<String>,
    writing: JoinHandle<()>,
    // Whether lines were told since the writing thread was woken.
    has_news: bool,
    // The second from which on lines have waited behind the ring and nothing was written.
    stuck_since: Option<u64>,
    ghost of_input: { ForSome reading (λ thread. SameTaker thread.promise.0.value input) },
}

impl Link {
    /// Starts the threads of a socket. They ring the bell when a line has come, when none comes any more and when nothing is written any more. A socket
    /// that is refused is handed back.
    pub fn start<R: Threads + Wait + Copy + Send + 'static>(
        rt: R,
        alloc: Global,
        socket: TcpStream,
        bell: &Arc<Parker, Global>,
    ) -> Result<Link, (Refusal, TcpStream)>
        ensures { IfErr result (λ e. e.0 ≢ Refusal.Full) }
    {
        let Ok(theirs) = socket.try_clone() else {
            return Err((Refusal::Thread, socket));
        };
        let Ok(shared) = Arc::new(alloc, Shared::new(alloc, theirs)) else {
            return Err((Refusal::Memory, socket));
        };
        let (Ok(inward), Ok(outward)) = (lines(alloc, INPUT_LINES), lines(alloc, OUTPUT_LINES))
        else {
            return Err((Refusal::Memory, socket));
        };
        let (sender, input) = inward;
        let (output, taker) = outward;
        let writing = match start_writing(rt, alloc, &shared, bell, taker) {
            Ok(writing) => writing,
            Err(refusal) => return Err((refusal, socket)),
        };
        match start_reading(rt, alloc, &shared, bell, sender, &input) {
            Ok(reading) => Ok(Link {
                shared,
                input,
                reading: Some(reading),
                output,
                beyond: VecDeque::new(alloc),
                writing,
                has_news: false,
                stuck_since: None,
            }),
            Err(refusal) => {
                shared.cut();
                writing.join(&rt);
                Err((refusal, socket))
            }
        }
    }

    /// What has come next. Nothing comes while lines wait behind the ring: whoever tells itself more than it reads waits.
    pub fn next<R: Threads>(&mut self, rt: &R) -> Input {
        if self.is_behind() {
            return Input::Nothing;
        }
        if self.shared.is_done() {
            self.settle(rt);
        }
        match self.input.take() {
            Some(line) => {
                self.shared.room.unpark();
                Input::Line(line)
            }
            None if self.reading.is_none() => Input::End,
            None => Input::Nothing,
        }
    }

    // Waits for the reading thread, which is about to end, and learns all that it sent.
    fn settle<R: Threads>(&mut self, rt: &R) {
        if let Some(reading) = self.reading.take() {
            if let Some(sent) = reading.join(rt) {
                self.input.settle(sent);
            }
        }
    }

    /// Whether no line comes any more but those that are in the ring.
    pub fn is_done(&self) -> bool {
        self.shared.is_done()
    }

    /// Tells a line. Where the ring has no room for it, it waits behind the others. Where there is no memory for that, the link is cut.
    pub fn tell(&mut self, line: String)
        ensures { IsSent self.old.output self.new.output self.old.beyond.items self.new.beyond.items line ⊎ (IsKept self.old.output self.new.output self.old.beyond.items self.new.beyond.items line ⊎ IsLost self.old.output self.new.output self.old.beyond.items self.new.beyond.items) }
    {
        if self.queue(line).is_err() {
            self.shared.cut();
        }
    }

    // Puts a line into the ring, or behind it.
    fn queue(&mut self, line: String) -> Result<(), AllocError>
        ensures ok { OnOk result (IsSent self.old.output self.new.output self.old.beyond.items self.new.beyond.items line ⊎ IsKept self.old.output self.new.output self.old.beyond.items self.new.beyond.items line) }
        ensures err { OnErr result (IsLost self.old.output self.new.output self.old.beyond.items self.new.beyond.items) }
    {
        if !self.beyond.is_empty() || self.shared.is_behind() {
            return self.keep(line);
        }
        match self.output.send(line) {
            Ok(()) => {
                self.has_news = true;
                Ok(())
            }
            Err(line) => {
                // There is enough to write meanwhile.
                self.shared.told.unpark();
                self.keep(line)
            }
        }
    }

    // Keeps a line for which the ring has no room.
    fn keep(&mut self, line: String) -> Result<(), AllocError>
        ensures ok { OnOk result (IsKept self.old.output self.new.output self.old.beyond.items self.new.beyond.items line) }
        ensures err { OnErr result (IsLost self.old.output self.new.output self.old.beyond.items self.new.beyond.items) }
    {
        self.beyond.push_back(line)?;
        Ok(())
    }

    /// Hands what was told to the writing thread, and wakes it if there is something for it. A link on which too much waits to be written is cut.
    pub fn flush<R: Wait>(&mut self, rt: &R)
        ensures { (lines_sent self.new.output ≡ lines_sent self.old.output) × (self.new.beyond.items ≡ []) }
    {
        if !self.beyond.is_empty() {
            self.hand_over(rt);
        }
        self.wake();
    }

    // Wakes the writing thread if there is something for it.
    fn wake(&mut self)
        ensures { (lines_sent self.new.output ≡ lines_sent self.old.output) × (self.new.beyond.items ≡ self.old.beyond.items) }
    {
        if self.has_news {
            self.has_news = false;
            self.shared.told.unpark();
        }
    }

    // Has the lines for which the ring had no room wait behind it.
    fn hand_over<R: Wait>(&mut self, rt: &R)
        ensures { (lines_sent self.new.output ≡ lines_sent self.old.output) × (self.new.beyond.items ≡ []) }
    {
        let none = VecDeque::new(*self.beyond.allocator());
        let lines = mem::replace(&mut self.beyond, none);
        if self.shared.is_cut() {
            return;
        }
        if !self.shared.put_behind(rt, lines) {
            self.shared.cut();
        }
        self.has_news = true;
    }

    /// Whether lines wait behind the ring, and may still be written.
    fn is_behind(&self) -> bool {
        self.shared.is_behind() && !self.shared.is_cut()
    }

    /// Whether lines wait behind the ring at this second. A link on which nothing has been written meanwhile for too long is cut.
    pub fn watch(&mut self, second: u64) -> bool {
        if !self.is_behind() {
            self.stuck_since = None;
            return false;
        }
        let has_written = self.shared.has_written();
        match self.stuck_since {
            Some(since) if !has_written => {
                if second.saturating_sub(since) >= PATIENCE {
                    self.shared.cut();
                }
            }
            _ => self.stuck_since = Some(second),
        }
        true
    }

    /// Tells no line any more: what was told is written, and then the link is cut.
    pub fn close<R: Wait>(&mut self, rt: &R) {
        self.flush(rt);
        self.shared.close();
    }

    /// Whether nothing is written any more.
    pub fn is_gone(&self) -> bool {
        self.shared.is_gone()
    }

    /// Ends the link, whatever waits to be written.
    pub fn cut(&self) {
        self.shared.cut();
    }

    /// Waits for the two threads of a link that is cut.
    pub fn join<R: Threads>(self, rt: &R) {
        let Link {
            reading,
            writing,
            ..
        } = self;
        if let Some(reading) = reading {
            reading.join(rt);
        }
        writing.join(rt);
    }
}

fn start_writing<R: Threads + Wait + Copy + Send + 'static>(
    rt: R,
    alloc: Global,
    shared: &Arc<Shared, Global>,
    bell: &Arc<Parker, Global>,
    taker: LineTaker,
) -> Result<JoinHandle<()>, Refusal>
    ensures { IfErr result (λ refusal. refusal ≢ Refusal.Full) }
{
    let (Ok(theirs), Ok(bell)) = (Arc::try_clone(shared), Arc::try_clone(bell)) else {
        return Err(Refusal::Memory);
    };
    let job = move || write_link(&rt, alloc, &theirs, &bell, taker);
    match thread::spawn(&rt, job) {
        Ok(writing) => Ok(writing),
        Err(_) => Err(Refusal::Thread),
    }
}

fn start_reading<R: Threads + Wait + Copy + Send + 'static>(
    rt: R,
    alloc: Global,
    shared: &Arc<Shared, Global>,
    bell: &Arc<Parker, Global>,
    sender: LineSender,
    input: &LineTaker,
) -> Result<PromisedHandle<Option<Sent>, OfTaker>, Refusal>
    requires { IsRing sender input.now }
    ensures ok { IfOk result (λ thread. thread.promise.0.value ≡ input.now) }
    ensures err { IfErr result (λ refusal. refusal ≢ Refusal.Full) }
{
    let (Ok(theirs), Ok(bell)) = (Arc::try_clone(shared), Arc::try_clone(bell)) else {
        return Err(Refusal::Memory);
    };
    let promise = OfTaker(Snapshot::of(input));
    let job = move || -> Option<Sent>
        ensures { IfSome result (λ s. FromSender sender s) }
    { read_link(&rt, alloc, &theirs, &bell, sender) };
    match thread::spawn_with(&rt, promise, job) {
        Ok(reading) => Ok(reading),
        Err(_) => Err(Refusal::Thread),
    }
}
