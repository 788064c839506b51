//! An encoder that holds until the world has gone on.
use crate::meeting::Meeting;
use checkpoint_beside::encoder::{Encoder, Plain};
use std::alloc::{AllocError, Global};
use std::sync::Arc;
use world::worlds::Snapshot;

/// The plain encoder, which begins a meeting and goes on when the other has answered.
#[derive(Drop)]
pub struct Holding {
    pub meeting: Arc<Meeting>,
}

impl Encoder for Holding {
    fn encode(&self, alloc: Global, snapshot: &Snapshot) -> Result<Vec<u8>, AllocError> {
        self.meeting.begin();
        Plain.encode(alloc, snapshot)
    }
}
