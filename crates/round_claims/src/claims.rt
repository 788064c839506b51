// The claim word, the seats and the tickets.
ghost use Rattle.std.specs.Prelude.{◌≡◌, ℕ, ◌+◌, ◌<◌, ◌≤◌, ◌↔◌, ◌⊎◌, ◌++◌, ◌||◌, [], true, length, All, IfOk, IfSome, IfNone, IsOk, IsSome, IsErrOf, None};
ghost use Rattle.round_claims.specs.Claimed.{EachOnceBelow, Opens, fresh_seat, with_claim, closed_seat};
ghost use Rattle.round_claims.specs.Rule.{size_of, first_view, left_view};

use crate::refusal::Refusal;
use crate::rule::{ClaimRule, Cut, Exchange, Merge, SeatView, Size};
use atomic_table::{Seat, Table};
use std::alloc::{AllocError, Global};
use std::marker::Model;

/// The most positions that claims can have: the word counts one more exchange for each seat, and is never to wrap.
pub const MOST_POSITIONS: usize = 1_099_511_627_775;

/// The most seats that claims can have.
pub const MOST_SEATS: usize = 64;

/// The right to a position, which is below the number of positions. Contracts see it as the position.
#[derive(Drop)]
pub struct Ticket {
    position: usize,
}

impl Model for Ticket {
    ghost Value = { ℕ };

    ghost view = { λ t. t.position };
}

impl Ticket {
    /// The position that was claimed.
    pub fn position(&self) -> usize
        ensures { result ≡ self.now }
    {
        self.position
    }
}

/// Positions to be claimed, which threads share by reference.
#[derive(Drop)]
pub struct Claims {
    table: Table<u8, SeatView, Size, ClaimRule, Global>,
    positions: u64,
}

impl Model for Claims {
    ghost use Rattle.std.specs.Prelude.{◌≡◌};
    ghost use Rattle.round_claims.specs.Claimed.{Offer};
    ghost use Rattle.round_claims.specs.Rule.{offer_of};

    ghost Value = { Offer };

    ghost view = { λ c. offer_of c.table.shared.table_id c.table.shared.key };

    ghost invariant = { λ c. (c.table.shared.key.positions ≡ c.positions)
        × (c.table.shared.table_id.words ≡ 1) × (c.table.shared.table_id.slots ≡ 0) };
}

/// What one worker claims with. It has no memory of its own, and may go to another thread.
#[derive(Drop)]
pub struct ClaimSeat {
    seat: Seat<u8, SeatView>,
    closed: bool,
}

impl Model for ClaimSeat {
    ghost use Rattle.round_claims.specs.Claimed.{Holding};
    ghost use Rattle.round_claims.specs.Rule.{holding_of, IsSeat};

    ghost Value = { Holding };

    ghost view = { λ s. holding_of s.seat.table_id s.seat.me.0 };

    ghost invariant = { λ s. IsSeat s.seat.me s.closed };
}

impl Claims {
    /// Claims of the positions below `positions`, with a seat for each worker.
    ///
    /// Workers (tested first): the number of seats is not 1 to 64. Memory: nothing is made.
    pub fn new(
        alloc: Global,
        positions: usize,
        seats: usize,
    ) -> Result<(Claims, Vec<ClaimSeat>), Refusal>
        requires { positions ≤ MOST_POSITIONS }
        ensures ok { IfOk result (λ made. Opens positions seats made.0 made.1.items) }
        ensures workers { IsErrOf result Refusal.Workers ↔ ((seats ≡ 0) ⊎ (MOST_SEATS < seats)) }
        ensures right { IsOk result → (0 < seats) × (seats ≤ MOST_SEATS) }
    {
        if seats == 0 || seats > MOST_SEATS {
            return Err(Refusal::Workers);
        }
        let size = Size {
            positions: positions as u64,
            seats: seats as u64,
        };
        let (table, mut origin) = Table::of_words(alloc, &[0], &size)?;
        let claims = Claims {
            table,
            positions: size.positions,
        };
        let all = claims.seats(alloc, &mut origin, seats)?;
        Ok((claims, all))
    }

    // Cuts so many seats off a view that stands for them.
    fn seats(
        &self,
        alloc: Global,
        origin: &mut Seat<u8, SeatView>,
        count: usize,
    ) -> Result<Vec<ClaimSeat>, AllocError>
        requires table { origin.old.table_id ≡ self.now.id }
        requires view { origin.old.me ≡ (first_view (size_of self.now), []) }
        requires count { count ≡ self.now.seats }
        ensures count { IfOk result (λ all. length all.items ≡ count) }
        ensures fresh { IfOk result (λ all. All (λ seat. seat ≡ fresh_seat self.now) all.items) }
    {
        let mut all = Vec::with_capacity(alloc, count)?;
        'seat: for _ in 0..count {
            let seat = self.cut(origin);
            all.push(seat)?;
        }
        Ok(all)
    }

    // One seat of a view that stands for several.
    fn cut(&self, origin: &mut Seat<u8, SeatView>) -> ClaimSeat
        requires table { origin.old.table_id ≡ self.now.id }
        requires size { origin.old.me.0.size ≡ size_of self.now }
        requires empty { (origin.old.me.1 ≡ []) × (origin.old.me.0.claimed ≡ []) }
        requires some { (0 < origin.old.me.0.seats) × (0 < origin.old.me.0.misses_left) }
        ensures seat { result ≡ fresh_seat self.now }
        ensures table { origin.new.table_id ≡ origin.old.table_id }
        ensures view { origin.new.me ≡ (left_view origin.old.me.0, origin.old.me.1) }
    {
        let seat = self.table.shared.split_seat::<Cut>(origin);
        ClaimSeat {
            seat,
            closed: false,
        }
    }

    /// Claims the next position by one atomic step, without memory and without waiting.
    ///
    /// A ticket is for a position that no other seat has or gets, and it stands at the end of the seat's list. None
    /// says that all positions are claimed. It closes the seat, which from then on answers None with no step.
    pub fn claim(&self, seat: &mut ClaimSeat) -> Option<Ticket>
        requires { seat.old.offer ≡ self.now }
        ensures some { IfSome result (λ position. (position < self.now.positions)
            × (seat.new ≡ with_claim seat.old position)) }
        ensures none { IfNone result (seat.new ≡ closed_seat seat.old) }
        ensures closed { seat.old.closed ≡ true → result ≡ None }
        ensures ends { IsSome result → length seat.old.claimed < self.now.positions }
    {
        if seat.closed {
            return None;
        }
        let found = self
            .table
            .shared
            .fetch_add::<Exchange>(&mut seat.seat, 0, 1);
        if found < self.positions {
            return Some(Ticket {
                position: found as usize,
            });
        }
        seat.closed = true;
        None
    }

    /// Puts another seat's positions behind this one's. From then on this seat stands for both.
    pub fn merge(&self, seat: &mut ClaimSeat, other: ClaimSeat)
        requires seat { seat.old.offer ≡ self.now }
        requires other { other.offer ≡ self.now }
        ensures offer { seat.new.offer ≡ self.now }
        ensures seats { seat.new.seats ≡ seat.old.seats + other.seats }
        ensures claimed { seat.new.claimed ≡ seat.old.claimed ++ other.claimed }
        ensures closed { seat.new.closed ≡ (seat.old.closed || other.closed) }
    {
        let ClaimSeat {
            seat: token,
            closed,
        } = other;
        self.table.shared.join_seat::<Merge>(&mut seat.seat, token);
        seat.closed = seat.closed || closed;
    }

    /// Ends the claims with a seat that stands for all of them, and says how many positions are claimed.
    ///
    /// The seat's list has each position below this number once, and no other. If the seat is closed, these are all
    /// positions.
    pub fn finish(self, seat: ClaimSeat) -> usize
        requires offer { seat.offer ≡ self }
        requires all { seat.seats ≡ self.seats }
        ensures each_once { EachOnceBelow result seat.claimed }
        ensures count { length seat.claimed ≡ result }
        ensures within { result ≤ self.positions }
        ensures closed { seat.closed ≡ true → result ≡ self.positions }
    {
        let Claims { table, positions } = self;
        let ClaimSeat {
            seat: token,
            closed: _,
        } = seat;
        let ended = table.close_with(token);
        let exchanges = ended.word(0);
        ended.free();
        exchanges.min(positions) as usize
    }
}
