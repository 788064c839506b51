//! A ring of lines between two threads: the end that sends, the end that takes, and what is left of a sender that has finished.
ghost use Rattle.std.specs.Prelude.{◌≡◌, [], ◌∷◌, ◌++◌, true, false, IfOk, IfErr, OnOk, IfSome, IfNone};
ghost use Rattle.connections.specs.Lines.{lines_sent, lines_taken, lines_left, all_lines, IsRing, IsSentOf, SameSender, SameTaker, Ends};

use rtrb::{Consumer, Finished, Producer, PushError, RingBuffer};
use std::alloc::{AllocError, Global};

/// The end of a ring that sends lines.
#[derive(Drop)]
pub struct LineSender {
    producer: Producer<String, Global>,
}

/// The end of a ring that takes lines.
#[derive(Drop)]
pub struct LineTaker {
    consumer: Consumer<String, Global>,
    // What the ring holds is all that will ever be taken.
    settled: bool,
}

/// All that one sender sent.
#[derive(Drop)]
pub struct Sent {
    finished: Finished<String, Global>,
}

/// A ring that holds at most `capacity` lines, and the memory for them.
pub fn lines(alloc: Global, capacity: usize) -> Result<(LineSender, LineTaker), AllocError>
    ensures ring { IfOk result (λ r. IsRing r.0 r.1) }
    ensures none { IfOk result (λ r. (lines_sent r.0 ≡ []) × (lines_taken r.1 ≡ []) × (r.1.settled ≡ false)) }
{
    let (producer, consumer) = RingBuffer::new(alloc, capacity)?;
    Ok((
        LineSender { producer },
        LineTaker {
            consumer,
            settled: false,
        },
    ))
}

impl LineSender {
    /// Sends a line. A full ring gives it back.
    pub fn send(&mut self, line: String) -> Result<(), String>
        ensures ring { SameSender self.old self.new }
        ensures ok { OnOk result (lines_sent self.new ≡ lines_sent self.old ++ line ∷ []) }
        ensures full { IfErr result (λ back. (back ≡ line) × (lines_sent self.new ≡ lines_sent self.old)) }
    {
        match self.producer.push(line) {
            Ok(()) => Ok(()),
            Err(PushError::Full(back)) => Err(back),
        }
    }

    /// Sends no line any more. None only where the taker is gone.
    pub fn finish(self) -> Option<Sent>
        ensures { IfSome result (λ s. Ends self s) }
    {
        let LineSender { producer } = self;
        match producer.finish() {
            Some(finished) => Some(Sent { finished }),
            None => None,
        }
    }
}

impl LineTaker {
    /// The next line, if one has come. After `settle` there is none only when all lines sent were taken.
    pub fn take(&mut self) -> Option<String>
        ensures ring { SameTaker self.old self.new × (self.new.settled ≡ self.old.settled) }
        ensures some { IfSome result (λ line. lines_taken self.new ≡ lines_taken self.old ++ line ∷ []) }
        ensures none { IfNone result (lines_taken self.new ≡ lines_taken self.old) }
        ensures settled { self.old.settled ≡ true → lines_taken self.new ++ lines_left self.new ≡ lines_taken self.old ++ lines_left self.old }
        ensures last { self.old.settled ≡ true → IfNone result (lines_left self.new ≡ []) }
    {
        if !self.settled {
            return self.consumer.pop().ok();
        }
        if self.consumer.cached_slots() == 0 {
            return None;
        }
        Some(self.consumer.pop_known())
    }

    /// Learns all that the sender, which has finished, sent: what was taken and what is left.
    pub fn settle(&mut self, sent: Sent)
        requires { IsSentOf sent self.old }
        ensures ring { SameTaker self.old self.new × (self.new.settled ≡ true) }
        ensures taken { lines_taken self.new ≡ lines_taken self.old }
        ensures all { lines_taken self.new ++ lines_left self.new ≡ all_lines sent }
    {
        let Sent { mut finished } = sent;
        self.consumer.slots_after(&mut finished);
        self.settled = true;
    }
}
