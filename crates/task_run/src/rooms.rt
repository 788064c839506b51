//! What a step leaves for one that comes.
use builtins::builtin_natives::builtins::Builtins;

/// Memory for the task of a step.
#[derive(Drop)]
pub struct Rooms {
    pub(crate) natives: Builtins,
}

impl Rooms {
    /// No memory yet.
    pub fn new() -> Rooms {
        Rooms {
            natives: Builtins::new(),
        }
    }
}
