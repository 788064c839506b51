//! What a step on the world as it is leaves for one that comes.
use std::alloc::Global;
use task_run::rooms::Rooms;
use view::changes::Changes;

/// Memory for the changes and the task of a step. The changes that are there do not count.
#[derive(Drop)]
pub(crate) struct Room {
    pub changes: Changes,
    pub task: Rooms,
}

impl Room {
    /// No memory yet.
    pub(crate) fn new(alloc: Global) -> Room {
        Room {
            changes: Changes::new(alloc),
            task: Rooms::new(),
        }
    }
}
