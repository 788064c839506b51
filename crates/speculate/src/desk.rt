//! What a worker has at hand.
use crate::guesses::Remains;
use std::alloc::Global;
use task_run::rooms::Rooms;

/// A worker's number, its room for steps, and what is left of its own guesses that were committed: memory goes back to the thread that took it.
#[derive(Drop)]
pub(crate) struct Desk {
    pub(crate) who: usize,
    pub(crate) rooms: Rooms,
    pub(crate) remains: Vec<Remains>,
}

impl Desk {
    /// Nothing yet.
    pub(crate) fn new(alloc: Global, who: usize) -> Desk {
        Desk {
            who,
            rooms: Rooms::new(),
            remains: Vec::new(alloc),
        }
    }
}
