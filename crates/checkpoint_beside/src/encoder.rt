//! What makes the text of a snapshot.
ghost use Rattle.std.specs.Prelude.{◌≡◌, IfOk};
ghost use Rattle.spec_world.specs.Checkpoint.{checkpoint_text};

use checkpoint_text::encode::encode;
use std::alloc::{AllocError, Global};
use world::worlds::Snapshot;

/// Makes the text of a snapshot, on the thread on which it is asked to.
pub trait Encoder: Send {
    /// The text of the snapshot's world.
    fn encode(&self, alloc: Global, snapshot: &Snapshot) -> Result<Vec<u8>, AllocError>
        ensures { IfOk result (λ text. text.items ≡ checkpoint_text snapshot.now) };
}

/// The encoder that only encodes.
#[derive(Drop)]
pub struct Plain;

impl Encoder for Plain {
    fn encode(&self, alloc: Global, snapshot: &Snapshot) -> Result<Vec<u8>, AllocError> {
        snapshot.know();
        let draft = snapshot.share()?;
        let text = encode(alloc, &draft)?;
        Ok(text.into_bytes())
    }
}
