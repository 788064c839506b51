//! What has come since the last list.
use crate::draft::{Draft, LONGEST_LIST};
use connections::door::Door;
use connections::links::{Input, Links, MOST_LINKS};
use moo_value::text::Text;
use std::alloc::{AllocError, Global};
use std::sync::{Arc, Wait};
use std::thread::{Parker, Threads};
use task_step::step::Event;

// The links of numbers 1 to 64, a bit each, the first for number 1.
type Numbers = u64;

/// Takes a line of each link, opens links for the sockets that wait, and takes further lines, one in turn of each link that had another, until the list is
/// full or there are none. A link of which no line comes any more gets its Close step.
pub fn gather<R: Threads + Wait + Copy + Send + 'static>(
    rt: R,
    alloc: Global,
    draft: &mut Draft,
    door: &mut Door,
    links: &mut Links,
    bell: &Arc<Parker, Global>,
) -> Result<(), AllocError> {
    let mut giving = take_round(&rt, draft, links, Numbers::MAX)?;
    admit_all(rt, alloc, draft, door, links, bell)?;
    'round: for _ in 0..LONGEST_LIST {
        if giving == 0 || draft.is_full() {
            return Ok(());
        }
        giving = take_round(&rt, draft, links, giving)?;
    }
    Ok(())
}

// Takes a line of each of these links, while there is room. Gives those that had one.
fn take_round<R: Threads>(
    rt: &R,
    draft: &mut Draft,
    links: &mut Links,
    among: Numbers,
) -> Result<Numbers, AllocError> {
    let mut giving = 0;
    'link: for at in 0..MOST_LINKS as u32 {
        let left = among >> at;
        if left == 0 || draft.is_full() {
            return Ok(giving);
        }
        if left & 1 == 1 && take_line(rt, draft, links, at + 1)? {
            giving |= 1 << at;
        }
    }
    Ok(giving)
}

// Takes a line of a link, or its end. Whether there was a line.
fn take_line<R: Threads>(
    rt: &R,
    draft: &mut Draft,
    links: &mut Links,
    number: u32,
) -> Result<bool, AllocError> {
    match links.next(rt, number) {
        Input::Line(line) => {
            let Some(text) = Text::new(line)? else {
                return Ok(false);
            };
            draft.push(Event::Line(number, text))?;
            Ok(true)
        }
        Input::End => {
            draft.close(number)?;
            Ok(false)
        }
        Input::Nothing => Ok(false),
    }
}

// Opens links for the sockets that wait. One that is refused is closed. Where all numbers are in use and one is about to be free, they wait on.
fn admit_all<R: Threads + Wait + Copy + Send + 'static>(
    rt: R,
    alloc: Global,
    draft: &mut Draft,
    door: &mut Door,
    links: &mut Links,
    bell: &Arc<Parker, Global>,
) -> Result<(), AllocError> {
    'socket: for _ in 0..LONGEST_LIST {
        if draft.is_full() || (links.is_full() && links.has_done()) {
            return Ok(());
        }
        let Some(socket) = door.take() else {
            return Ok(());
        };
        if let Ok(number) = links.admit(rt, alloc, socket, bell) {
            draft.push(Event::Open(number))?;
        }
    }
    Ok(())
}
