//! Readers and writers in memory, and calls of them that fail.
ghost use Rattle.std.specs.Prelude.{◌≡◌, ◌+◌, IfOk};

use std::alloc::{AllocError, Global};
use std::collections::VecDeque;
use std::io;
use streams::sink::Sink;
use streams::source::Source;
use world::count::Count;

/// The most bytes that a writer takes at once.
pub const MOST_TAKEN: usize = 5;

/// How a write fails.
#[derive(Clone, Copy, Debug)]
pub enum Failure {
    /// By an error.
    Error,
    /// None of its bytes is taken.
    Nothing,
}

/// Which call of a device fails.
#[derive(Clone, Copy, Debug)]
pub struct Fault {
    // How many calls come before it, if there is one still to come.
    after: Option<usize>,
}

impl Fault {
    /// None fails.
    pub fn never() -> Fault {
        Fault { after: None }
    }

    /// The one after so many fails, and no other.
    pub fn after(calls: usize) -> Fault {
        Fault { after: Some(calls) }
    }

    // A call comes. Whether it is the one that fails.
    fn comes(&mut self) -> bool {
        match self.after {
            Some(0) => {
                self.after = None;
                true
            }
            Some(calls) => {
                self.after = Some(calls - 1);
                false
            }
            None => false,
        }
    }
}

/// A reader of bytes, one in each read.
#[derive(Drop)]
pub struct Given {
    rest: VecDeque<u8>,
    fault: Fault,
    failures: Count,
}

impl Given {
    /// A reader of these bytes.
    pub fn new(alloc: Global, bytes: &[u8], fault: Fault) -> Result<Given, AllocError> {
        let mut rest = VecDeque::new(alloc);
        for byte in bytes {
            rest.push_back(*byte)?;
        }
        Ok(Given {
            rest,
            fault,
            failures: Count::zero(),
        })
    }
}

impl Source for Given {
    ghost left = { λ g. g.rest.items };

    ghost failures = { λ g. g.failures };

    fn read(&mut self, buffer: &mut [u8]) -> io::Result<usize> {
        if self.fault.comes() {
            self.failures.tick();
            return Err(io::ErrorKind::Other.into());
        }
        if buffer.is_empty() {
            return Ok(0);
        }
        match self.rest.pop_front() {
            Some(byte) => {
                buffer[0] = byte;
                Ok(1)
            }
            None => Ok(0),
        }
    }
}

/// A writer that keeps what it takes, `MOST_TAKEN` bytes at most in each write.
#[derive(Drop)]
pub struct Kept {
    bytes: Vec<u8>,
    fault: Fault,
    failure: Failure,
    failures: Count,
}

impl Kept {
    /// A writer that has nothing yet.
    pub fn new(alloc: Global, fault: Fault, failure: Failure) -> Kept {
        Kept {
            bytes: Vec::new(alloc),
            fault,
            failure,
            failures: Count::zero(),
        }
    }

    /// What it has taken.
    pub fn bytes(&self) -> &[u8] {
        self.bytes.as_slice()
    }

    // A write fails.
    fn fail(&mut self) -> io::Result<usize>
        ensures kept { self.new.bytes ≡ self.old.bytes }
        ensures counted { self.new.failures ≡ self.old.failures + 1 }
        ensures none { IfOk result (λ n. n ≡ 0) }
    {
        self.failures.tick();
        match self.failure {
            Failure::Error => Err(io::ErrorKind::Other.into()),
            Failure::Nothing => Ok(0),
        }
    }
}

impl Sink for Kept {
    ghost written = { λ k. k.bytes.items };

    ghost failures = { λ k. k.failures };

    fn write(&mut self, bytes: &[u8]) -> io::Result<usize> {
        if bytes.is_empty() {
            return Ok(0);
        }
        if self.fault.comes() {
            return self.fail();
        }
        let count = bytes.len().min(MOST_TAKEN);
        match self.bytes.extend_from_slice(&bytes[..count]) {
            Ok(()) => Ok(count),
            Err(_) => self.fail(),
        }
    }
}
