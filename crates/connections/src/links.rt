//! The links of a server, by their numbers.
ghost use Rattle.std.specs.Prelude.{◌≡◌, ◌≤◌, ◌+◌, ◌-◌, ◌↔◌, vec_len, true, false, set, IfOk, IfErr, IsTrue};
ghost use Rattle.connections.specs.Places.{in_use, leading};

use crate::link::Link;
pub use crate::link::{Input, Refusal};
use std::alloc::{AllocError, Global};
use std::net::TcpStream;
use std::sync::{Arc, Wait};
use std::thread::{Parker, Threads};

/// The most links that are open.
pub const MOST_LINKS: usize = 64;

/// The most links that are not open any more and still write what they were told.
pub const MOST_ENDING: usize = 64;

/// The links that are open, with numbers from 1 to `MOST_LINKS`, and those that only write what they were told.
#[derive(Drop)]
pub struct Links {
    // That of the number 1 first.
    places: Vec<Option<Link>>,
    // The oldest first.
    ending: Vec<Link>,
    ghost as_many: { vec_len places ≡ 64 },
}

impl Links {
    /// No links.
    pub fn new(alloc: Global) -> Result<Links, AllocError> {
        let mut places = Vec::with_capacity(alloc, MOST_LINKS)?;
        'place: for _ in 0..MOST_LINKS {
            places.push(None)?;
        }
        Ok(Links {
            places,
            ending: Vec::with_capacity(alloc, MOST_ENDING)?,
        })
    }

    /// Opens a link on a socket, with the least number that is not in use. A socket that is refused is handed back.
    pub fn admit<R: Threads + Wait + Copy + Send + 'static>(
        &mut self,
        rt: R,
        alloc: Global,
        socket: TcpStream,
        bell: &Arc<Parker, Global>,
    ) -> Result<u32, (Refusal, TcpStream)>
        ensures ok { IfOk result (λ n. (n ≡ leading (in_use self.old.places.items) + 1) × (n ≤ 64)) }
        ensures used { IfOk result (λ n. in_use self.new.places.items ≡ set (in_use self.old.places.items) (n - 1) true) }
        ensures full { IfErr result (λ e. (e.0 ≡ Refusal.Full) ↔ (leading (in_use self.old.places.items) ≡ 64)) }
        ensures err { IfErr result (λ e. in_use self.new.places.items ≡ in_use self.old.places.items) }
    {
        let at = self.first_free();
        if at >= MOST_LINKS {
            return Err((Refusal::Full, socket));
        }
        let link = Link::start(rt, alloc, socket, bell)?;
        self.places[at] = Some(link);
        Ok(at as u32 + 1)
    }

    // The first place with no link, or how many places there are.
    fn first_free(&self) -> usize
        ensures first { result ≡ leading (in_use self.now.places.items) }
        ensures within { result ≤ 64 }
    {
        let mut at = 0;
        'place: while at < self.places.len() && self.places[at].is_some() {
            at += 1;
        }
        at
    }

    // The open link of a number.
    fn link(&mut self, number: u32) -> Option<&mut Link> {
        let at = (number as usize).checked_sub(1)?;
        self.places.get_mut(at)?.as_mut()
    }

    /// What has come next from a link.
    pub fn next<R: Threads>(&mut self, rt: &R, number: u32) -> Input {
        match self.link(number) {
            Some(link) => link.next(rt),
            None => Input::Nothing,
        }
    }

    /// Tells a link a line.
    pub fn tell(&mut self, number: u32, line: String) {
        if let Some(link) = self.link(number) {
            link.tell(line);
        }
    }

    /// Has the lines written that were told: all those of a list, however many they are. A link that has not written what earlier lists told it, and was
    /// told a thousand lines since, is cut.
    pub fn flush<R: Wait>(&mut self, rt: &R) {
        'number: for number in 1..=MOST_LINKS as u32 {
            if let Some(link) = self.link(number) {
                link.flush(rt);
            }
        }
    }

    /// Whether a link has more lines to write than its ring holds at this second, so that it is to be watched. One that has written none of them for seconds
    /// is cut. Nothing comes from such a link; the bell rings when its lines are in the ring.
    pub fn watch(&mut self, second: u64) -> bool {
        let mut some = false;
        'number: for number in 1..=MOST_LINKS as u32 {
            if let Some(link) = self.link(number) {
                some = link.watch(second) || some;
            }
        }
        'ending: for link in self.ending.iter_mut() {
            some = link.watch(second) || some;
        }
        some
    }

    /// Whether every number is in use.
    pub fn is_full(&self) -> bool
        ensures { IsTrue result ↔ leading (in_use self.now.places.items) ≡ 64 }
    {
        self.first_free() >= MOST_LINKS
    }

    /// Whether a link of which no line comes any more is open still.
    pub fn has_done(&self) -> bool {
        self.places.iter().any(|place| match place {
            Some(link) => link.is_done(),
            None => false,
        })
    }

    /// Takes a link out, if there is one of this number, which is free from then on. It writes what it was told, and ends. Where too many links do so
    /// already, the oldest of them is cut.
    pub fn release<R: Threads + Wait>(&mut self, rt: &R, number: u32) -> Result<(), AllocError> {
        if self.link(number).is_none() {
            return Ok(());
        }
        self.make_room(rt);
        self.ending.reserve(1)?;
        if let Some(mut link) = self.take(number) {
            link.close(rt);
            self.ending.push_reserved(link);
        }
        Ok(())
    }

    // The open link of a number, whose place is free then.
    fn take(&mut self, number: u32) -> Option<Link>
        ensures { self.new.ending ≡ self.old.ending }
    {
        let at = (number as usize).checked_sub(1)?;
        self.places.get_mut(at)?.take()
    }

    // Has one link more write what it was told: where too many do, those that have are waited for, or else the oldest is cut.
    fn make_room<R: Threads>(&mut self, rt: &R) {
        if self.ending.len() >= MOST_ENDING {
            self.sweep(rt);
        }
        if self.ending.len() >= MOST_ENDING {
            end(rt, self.ending.remove(0));
        }
    }

    /// Tells no link a line any more: each writes what it was told, and ends.
    pub fn close<R: Wait>(&mut self, rt: &R) {
        'number: for number in 1..=MOST_LINKS as u32 {
            if let Some(link) = self.link(number) {
                link.close(rt);
            }
        }
    }

    /// Waits for the threads of the links that have written all that they were told.
    pub fn sweep<R: Threads>(&mut self, rt: &R) {
        'ended: for _ in 0..MOST_ENDING {
            let Some(at) = self.ending.iter().position(|link| link.is_gone()) else {
                return;
            };
            self.ending.remove(at).join(rt);
        }
    }

    /// Cuts every link, and waits for its threads.
    pub fn end<R: Threads>(self, rt: &R) {
        let Links { places, ending } = self;
        for place in places {
            if let Some(link) = place {
                end(rt, link);
            }
        }
        for link in ending {
            end(rt, link);
        }
    }
}

// Cuts a link, and waits for its threads.
fn end<R: Threads>(rt: &R, link: Link) {
    link.cut();
    link.join(rt);
}
