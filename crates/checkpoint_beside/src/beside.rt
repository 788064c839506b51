//! A thread that makes the text of a snapshot.
ghost use Rattle.std.specs.Prelude.{◌≡◌, IfOk};
ghost use Rattle.spec_world.specs.Checkpoint.{checkpoint_text};

use crate::encoder::Encoder;
use std::alloc::{AllocError, Global};
use std::snapshot::Snapshot as Remembered;
use std::thread::{Builder, Promise, PromisedHandle, Threads};
use task_step::stack::STACK_SIZE;
use world::worlds::Snapshot;

// What the thread gives is the text of the snapshot that it was started with.
#[derive(Drop)]
pub struct TextOf(Remembered<Snapshot>);

impl Promise<Result<Vec<u8>, AllocError>> for TextOf {
    ghost kept_by = { λ p r. IfOk r (λ text. text.items ≡ checkpoint_text p.0.value) };
}

/// Why no text is made.
#[derive(Clone, Copy, PartialEq, Eq, Debug)]
pub enum Refusal {
    /// The thread could not be started, for want of memory too.
    Thread,
}

/// A thread that makes the text of a snapshot. One that is let go of goes on, and its text is lost.
#[derive(Drop)]
pub struct Beside {
    handle: PromisedHandle<Result<Vec<u8>, AllocError>, TextOf>,
}

impl Beside {
    /// Starts the thread, on which the encoder makes the text. Where it cannot be started the snapshot is let go of.
    pub fn start<E: Encoder + Drop + 'static, R: Threads>(
        rt: &R,
        alloc: Global,
        encoder: E,
        snapshot: Snapshot,
    ) -> Result<Beside, Refusal>
        ensures { IfOk result (λ b. b.handle.promise.0.value ≡ snapshot) }
    {
        let promise = TextOf(Remembered::of(&snapshot));
        let job = move || encoder.encode(alloc, &snapshot);
        match Builder::new()
            .stack_size(STACK_SIZE)
            .spawn_with(rt, promise, job)
        {
            Ok(handle) => Ok(Beside { handle }),
            Err(_) => Err(Refusal::Thread),
        }
    }

    /// Waits for the thread, and gives the text of the snapshot's world.
    pub fn join<R: Threads>(self, rt: &R) -> Result<Vec<u8>, AllocError>
        ensures { IfOk result (λ text. text.items ≡ checkpoint_text self.handle.promise.0.value) }
    {
        let Beside { handle } = self;
        handle.join(rt)
    }
}
