//! What a step has done besides changing the world.
use moo_value::text::Text;

/// What a step has done so far besides changing the world, and what it is told: its number, its moment and the key of its random words.
#[derive(Drop)]
pub struct Deeds {
    pub number: u32,
    /// In seconds.
    pub moment: u32,
    pub key: [u8; 32],
    /// How many random words were drawn.
    pub words_used: u64,
    /// How many ids of tasks were given.
    pub ids_used: u32,
    /// How many lines the step has written, of those that are kept.
    pub lines_kept: u32,
    /// The task's own id, once it has one.
    pub task: Option<i32>,
    pub output: Vec<Told>,
    pub queued: Vec<Queued>,
    /// The connections that were closed.
    pub closed: Vec<i32>,
    /// Whether a checkpoint was asked for.
    pub checkpoint: bool,
}

/// A line for a player or a connection.
#[derive(Drop)]
pub struct Told {
    pub player: i32,
    pub line: Text,
}

/// A task that the step put into the queue.
#[derive(Clone, Copy)]
pub struct Queued {
    pub id: i32,
    pub due: Due,
}

/// When a queued task is due.
#[derive(Clone, Copy)]
pub enum Due {
    /// In seconds.
    AtMoment(u32),
    /// When it is resumed.
    Never,
    /// When a line is read.
    WhenRead,
}
