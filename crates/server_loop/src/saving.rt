//! The checkpoints of a server.
use checkpoint_beside::beside::Beside;
use checkpoint_beside::encoder::{Encoder, Plain};
use checkpoint_text::by_threads::encode_by_threads;
use std::alloc::{AllocError, Global};
use std::io;
use std::io::Write;
use std::sync::Arc;
use std::sync::atomic::{AtomicBool, Ordering};
use std::thread::{Parker, Threads};
use whole_files::writing::WholeFiles;
use world::worlds::{Snapshot, World};

/// The file of a server's checkpoints, and the next of them on its way. Its text is made and written on a thread of its own while
/// the server goes on, one at a time; of the worlds that wait for it the newest alone is kept.
#[derive(Drop)]
pub struct Saver {
    file: Arc<String, Global>,
    // The world that is to be written next.
    waiting: Option<Snapshot>,
    // Whether the world of the next turn is to be written, as none could be kept or begun.
    is_owed: bool,
    encoding: Option<Beside>,
    signal: Signal,
}

impl Saver {
    /// Nothing is to be written yet. The bell rings when something has been done.
    pub fn new(alloc: Global, file: &str, bell: &Arc<Parker, Global>) -> Result<Saver, AllocError> {
        Ok(Saver {
            file: Arc::new(alloc, String::from_str(alloc, file)?)?,
            waiting: None,
            is_owed: false,
            encoding: None,
            signal: Signal {
                is_done: Arc::new(alloc, AtomicBool::new(false))?,
                is_written: Arc::new(alloc, AtomicBool::new(false))?,
                bell: Arc::try_clone(bell)?,
            },
        })
    }

    /// Keeps the world if a task asked for that, says how the writing of one went that is over, and goes on with what is to be written.
    pub fn tend<R: AllocGlobal + WholeFiles + Threads + Copy + Send + 'static, E: Write>(
        &mut self,
        rt: R,
        world: &World,
        is_asked: bool,
        errors: &mut E,
    ) {
        if is_asked || self.is_owed {
            self.keep(world);
        }
        if self.signal.is_given() {
            self.finish(&rt, errors);
        }
        if self.encoding.is_none() {
            self.begin(rt);
        }
    }

    // Keeps the world, in place of one that waits.
    fn keep(&mut self, world: &World) {
        match world.snapshot() {
            Ok(snapshot) => {
                self.waiting = Some(snapshot);
                self.is_owed = false;
            }
            Err(_) => self.is_owed = true,
        }
    }

    // Begins with the world that waits.
    fn begin<R: AllocGlobal + WholeFiles + Threads + Copy + Send + 'static>(&mut self, rt: R) {
        let Some(snapshot) = self.waiting.take() else {
            return;
        };
        let Ok(writer) = self.make_writer(rt) else {
            self.is_owed = true;
            return;
        };
        match Beside::start(&rt, rt.alloc(), writer, snapshot) {
            Ok(beside) => self.encoding = Some(beside),
            Err(_) => self.is_owed = true,
        }
    }

    // What a thread needs that writes the file.
    fn make_writer<R: Copy>(&self, rt: R) -> Result<Writer<R>, AllocError> {
        Ok(Writer {
            rt,
            file: Arc::try_clone(&self.file)?,
            signal: self.signal.share()?,
        })
    }

    // Waits for the thread, if there is one, and says whether it wrote the file.
    fn finish<R: Threads, E: Write>(&mut self, rt: &R, errors: &mut E) {
        if let Some(encoding) = self.encoding.take() {
            let is_made = encoding.join(rt).is_ok();
            say(
                errors,
                self.file.as_str(),
                is_made && self.signal.is_written(),
            );
        }
    }

    /// Waits for what is on its way, and writes the last world. Gives whether that went well.
    pub fn end<R: AllocGlobal + WholeFiles + Threads + Sync, E: Write>(
        mut self,
        rt: &R,
        world: &World,
        errors: &mut E,
    ) -> bool {
        self.finish(rt, errors);
        let is_written = write_world(rt, self.file.as_str(), world).is_ok();
        say(errors, self.file.as_str(), is_written);
        is_written
    }
}

fn write_world<R: AllocGlobal + WholeFiles + Threads + Sync>(
    rt: &R,
    file: &str,
    world: &World,
) -> io::Result<()> {
    let snapshot = world.snapshot()?;
    let text = encode_by_threads(rt, rt.alloc(), &snapshot)?;
    rt.write_whole(file, text.as_str().as_bytes())
}

// Says how the writing of a file went.
fn say<E: Write>(errors: &mut E, file: &str, is_written: bool) {
    let _ = if is_written {
        writeln!(errors, "moo-server: wrote {file}")
    } else {
        writeln!(errors, "moo-server: cannot write {file}")
    };
}

// What a thread gives when it has done its work, and whether the file was written.
#[derive(Drop)]
struct Signal {
    is_done: Arc<AtomicBool, Global>,
    is_written: Arc<AtomicBool, Global>,
    bell: Arc<Parker, Global>,
}

impl Signal {
    // The same one, for a thread.
    fn share(&self) -> Result<Signal, AllocError> {
        Ok(Signal {
            is_done: Arc::try_clone(&self.is_done)?,
            is_written: Arc::try_clone(&self.is_written)?,
            bell: Arc::try_clone(&self.bell)?,
        })
    }

    // Gives it, and rings the bell.
    fn give(&self, is_written: bool) {
        self.is_written.store(is_written, Ordering::SeqCst);
        self.is_done.store(true, Ordering::SeqCst);
        self.bell.unpark();
    }

    // Whether it was given, each time once.
    fn is_given(&self) -> bool {
        let is_given = self.is_done.load(Ordering::SeqCst);
        if is_given {
            self.is_done.store(false, Ordering::SeqCst);
        }
        is_given
    }

    // Whether the thread that gave it last had written the file.
    fn is_written(&self) -> bool {
        self.is_written.load(Ordering::SeqCst)
    }
}

// Makes the text of a world and writes the file, on the thread that it is handed to.
#[derive(Drop)]
struct Writer<R> {
    rt: R,
    file: Arc<String, Global>,
    signal: Signal,
}

impl<R: WholeFiles + Send> Encoder for Writer<R> {
    fn encode(&self, alloc: Global, snapshot: &Snapshot) -> Result<Vec<u8>, AllocError> {
        let text = Plain.encode(alloc, snapshot);
        let is_written = match &text {
            Ok(text) => self
                .rt
                .write_whole(self.file.as_str(), text.as_slice())
                .is_ok(),
            Err(_) => false,
        };
        self.signal.give(is_written);
        text
    }
}
