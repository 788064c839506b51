//! Lines that wait behind a full ring.
ghost use Rattle.std.specs.Prelude.{◌≡◌, ◌↔◌, ◌++◌, ◌∷◌, [], IsTrue, MatchOption};

use std::alloc::Global;
use std::collections::VecDeque;

/// The most lines that are told while lines of an earlier list wait.
const MOST_LATE: usize = 1024;

/// The lines that wait behind a full ring, in order.
#[derive(Drop)]
pub(crate) struct Backlog {
    alloc: Global,
    lines: VecDeque<String>,
    // How many of them were told while others waited.
    late: usize,
}

impl Backlog {
    /// No lines.
    pub fn new(alloc: Global) -> Backlog
        ensures { result.lines.items ≡ [] }
    {
        Backlog {
            alloc,
            lines: VecDeque::new(alloc),
            late: 0,
        }
    }

    /// Adds what a list told. Whether it may wait: where no lines wait a list may tell any number, and further lists together `MOST_LATE` while some of them
    /// wait.
    pub fn add(&mut self, mut lines: VecDeque<String>) -> bool
        ensures first { self.old.lines.items ≡ [] → IsTrue result }
        ensures added { IsTrue result → self.new.lines.items ≡ self.old.lines.items ++ lines.items }
    {
        if self.lines.is_empty() {
            self.late = 0;
            self.lines = lines;
            return true;
        }
        self.late = self.late.saturating_add(lines.len());
        self.late <= MOST_LATE && self.lines.append(&mut lines).is_ok()
    }

    /// Takes the next line.
    pub fn take(&mut self) -> Option<String>
        ensures { MatchOption result ((self.old.lines.items ≡ []) × (self.new.lines.items ≡ [])) (λ line. self.old.lines.items ≡ line ∷ self.new.lines.items) }
    {
        self.lines.pop_front()
    }

    /// Whether none waits. Then their memory is given back.
    pub fn is_done(&mut self) -> bool
        ensures none { IsTrue result ↔ self.old.lines.items ≡ [] }
        ensures stay { self.new.lines.items ≡ self.old.lines.items }
    {
        if !self.lines.is_empty() {
            return false;
        }
        self.lines = VecDeque::new(self.alloc);
        true
    }
}
