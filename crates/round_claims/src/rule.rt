// The rule of the claim word, and what each kind of step does to a seat's view. No value of a view is made: it is for
// the proofs.
ghost use Rattle.round_claims.specs.Rule.{IsKept, first_view, seat_view, left_view, joined_view, spent_view, Exchanges};

use atomic_table::{Join, Play, Split, TableRule};
use std::collections::LinkedList;

/// How many positions are to be claimed, and by how many seats.
#[derive(Clone, Copy)]
pub struct Size {
    pub positions: u64,
    pub seats: u64,
}

/// What a seat knows.
pub struct SeatView {
    pub size: Size,
    // How many seats it stands for: more than one after a merge, and none where nobody has it any more.
    pub seats: u64,
    // How many exchanges it may still make that find no position.
    pub misses_left: u64,
    // The positions that it claimed.
    pub claimed: LinkedList<u64>,
    pub closed: bool,
}

/// The claimed positions are the numbers below the word, each once.
pub struct ClaimRule;

impl TableRule<u8, SeatView, Size> for ClaimRule {
    ghost holds = { λ size s. IsKept size s.words s.views };

    ghost first = { first_view };
}

/// One exchange of a seat, which adds one to the word.
pub struct Exchange;

impl Play<u8, SeatView> for Exchange {
    ghost then = { Exchanges };
}

/// One seat is cut off a view that stands for several.
pub struct Cut;

impl Split<SeatView> for Cut {
    ghost left = { left_view };

    ghost right = { λ v. seat_view v.size };
}

/// Two seats are made one.
pub struct Merge;

impl Join<SeatView> for Merge {
    ghost both = { joined_view };

    ghost spent = { spent_view };
}
