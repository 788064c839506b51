//! Positions of a list, each claimed by one of several workers, and none left out.
//!
//! A caller that has a list of so many positions makes [`Claims`] for it, with a [`ClaimSeat`] for each worker. The
//! claims are shared by reference, and each seat moves to the thread of its worker, which claims until nothing is left:
//!
//! ```text
//! let (claims, seats) = Claims::new(alloc, list.len(), workers)?;
//! // in the thread of each worker, which has a seat of its own:
//! while let Some(ticket) = claims.claim(&mut seat) {
//!     work_at(ticket.position());
//! }
//! // and once the threads have ended, with one of the seats and each of the others:
//! claims.merge(&mut seat, other);
//! claims.finish(seat);
//! ```
//!
//! Contracts see claims as their `positions` and `seats`, and a seat as its `offer` (the claims that it is of), the
//! list `claimed` of its positions, whether it is `closed`, and how many `seats` it stands for.
//!
//! - Each call asks that the seat is of these claims, `seat.offer ≡ claims`. `new` says so of each seat that it makes,
//!   every call keeps it, and a thread that hands its seat back has to say it of its result.
//! - `claim` is one atomic step on one word, takes no memory and waits for nobody. A ticket's position is below the
//!   number of positions, and from then on the last of the seat's list. The seat's list was shorter than there are
//!   positions, so a loop that claims until None ends: its measure is `claims.positions - length seat.claimed`.
//! - None says that all positions are claimed, and closes the seat. A closed seat takes no step any more, so the word
//!   ends at most at the number of positions and one more for each seat, and never wraps.
//! - `merge` puts two seats' lists together. `finish` says of a seat that stands for all what their lists have in
//!   common: each number below the result stands in them once, and no other; and if one of the seats was closed, the
//!   result is the number of positions. So each position was claimed by exactly one seat.
//!
//! A seat that is dropped keeps what it claimed, and then no seat stands for all any more. No clause says that a thread
//! gets on, or in which order two seats claim.
#![tactic(auto)]

mod claims;
mod refusal;
mod rule;

pub use claims::{ClaimSeat, Claims, MOST_POSITIONS, MOST_SEATS, Ticket};
pub use refusal::Refusal;

#[cfg(test)]
mod tests;
