//! A list by several workers. Each claims some positions that follow one another, guesses their steps on the world as it then is, and posts the guesses; none
//! waits for another's.
ghost use Rattle.std.specs.Prelude.{◌≡◌, ◌≤◌, ◌<◌, ◌+◌, ℕ, [], All, length, take, vec_len, IfOk, IfErr, IfSome};
ghost use Rattle.round_claims.specs.Claimed.{fresh_seat};
ghost use Rattle.spec_world.specs.Step.{AllInRange};
ghost use Rattle.spec_world.specs.World.{World as Plain};
ghost use Rattle.spec_moo.specs.Steps.{play};
ghost use Rattle.speculate.specs.BoardState.{runs, world_after};
ghost use denote.Param.Send.{IsSend, IsSync};

use crate::board::Board;
use crate::desk::Desk;
use crate::finish::conclude;
use crate::gate::{Gate, guess_at};
use crate::guesses::Guess;
use crate::report::Report;
use crate::shared::{Run, SharedBoard};
use crate::sight::Sight;
use round_claims::{ClaimSeat, Claims};
use std::alloc::Global;
use std::sync::Wait;
use std::thread;
use std::thread::{Builder, Threads};
use task_step::partial::{Partial, Refusal};
use task_step::stack::STACK_SIZE;
use task_step::step::Step;
use world::shared::SharedSnapshot;

// How often at most a worker guesses what is next in place of its own positions.
const MOST_HELPS: usize = 64;

/// Plays the board of the list `J` to its end by a worker for each seat, each claiming batches of so many positions, and going so far
/// ahead of what is committed where guesses do not hold.
pub(crate) fn play_by_claims<J: Run, G: Gate, R: Threads + Wait + Sync>(
    rt: &R,
    alloc: Global,
    gate: &G,
    board: Board,
    claims: &Claims,
    seats: Vec<ClaimSeat>,
    steps: &[Step],
    size: usize,
    ahead: usize,
) -> Result<Report, Partial>
    requires base { board.base ≡ J.base }
    requires list { board.steps ≡ J.steps }
    requires range { AllInRange steps.now }
    requires seats { All (λ seat. seat ≡ fresh_seat claims.now) seats.items }
    ensures ok { IfOk result (λ r. play board.base.plain board.steps ≡ (r.world.plain, r.outcomes.items)) }
    ensures count { IfOk result (λ r. (length r.outcomes.items ≡ length board.steps) × (length r.marks.items ≡ length board.steps)) }
    ensures part { IfErr result (λ p. play board.base.plain (take p.count board.steps) ≡ (p.world.plain, p.outcomes.items)) }
    ensures err { IfErr result (λ p. (p.count ≡ length p.outcomes.items) × (p.count ≤ length board.steps) × (p.refusal ≡ Refusal.Memory)) }
    ensures views { IfOk result (λ r. board.base.opened + runs r.marks.items ≤ r.world.opened) }
{
    let shared: SharedBoard<J> = SharedBoard::new(board);
    crew(rt, alloc, gate, &shared, claims, seats, steps, size, ahead);
    conclude(alloc, shared.into_board())
}

// All workers, each on a thread of its own but for the caller. Where one cannot be started, the others claim its share.
fn crew<J: Run, G: Gate, R: Threads + Wait + Sync>(
    rt: &R,
    alloc: Global,
    gate: &G,
    shared: &SharedBoard<J>,
    claims: &Claims,
    mut seats: Vec<ClaimSeat>,
    steps: &[Step],
    size: usize,
    ahead: usize,
)
    requires range { AllInRange steps.now }
    requires seats { All (λ seat. seat ≡ fresh_seat claims.now) seats.items }
{
    let Some(own) = next_seat(claims, &mut seats) else {
        return;
    };
    let last = seats.len();
    thread::scope(
        thread::scope_env(),
        rt,
        move |scope|
            requires { IsSend J.row × IsSync G.row × IsSync R.row × AllInRange steps.now
                × All (λ seat. seat ≡ fresh_seat claims.now) seats.items × (own ≡ fresh_seat claims.now) }
        {
            let mut seats = seats;
            'seat: while let Some(seat) = next_seat(claims, &mut seats) {
                let who = seats.len();
                let job = move ||
                    requires { AllInRange steps.now × (seat ≡ fresh_seat claims.now) }
                {
                    work(
                        rt, alloc, gate, shared, claims, seat, steps, size, ahead, who,
                    )
                };
                let _ = Builder::new()
                    .stack_size(STACK_SIZE)
                    .spawn_scoped(scope, job);
            }
            work(
                rt, alloc, gate, shared, claims, own, steps, size, ahead, last,
            );
        },
    );
}

// One seat of those that are left.
fn next_seat(claims: &Claims, seats: &mut Vec<ClaimSeat>) -> Option<ClaimSeat>
    requires { All (λ seat. seat ≡ fresh_seat claims.now) seats.old.items }
    ensures rest { All (λ seat. seat ≡ fresh_seat claims.now) seats.new.items }
    ensures seat { IfSome result (λ seat. seat ≡ fresh_seat claims.now) }
    ensures less { IfSome result (λ _. vec_len seats.new < vec_len seats.old) }
{
    let _claims = claims;
    seats.pop()
}

// One worker of this number: it claims until nothing is left. A ticket stands for as many positions as a batch has.
fn work<J: Run, G: Gate, R: Wait>(
    rt: &R,
    alloc: Global,
    gate: &G,
    shared: &SharedBoard<J>,
    claims: &Claims,
    mut seat: ClaimSeat,
    steps: &[Step],
    size: usize,
    ahead: usize,
    who: usize,
)
    requires range { AllInRange steps.now }
    requires seat { seat.offer ≡ claims.now }
{
    let mut desk = Desk::new(alloc, who);
    let mut sight = shared.look(rt, alloc, ahead);
    'claim: while let Some(ticket) = claims.claim(&mut seat) {
        let first = ticket.position().saturating_mul(size).min(steps.len());
        let end = first.saturating_add(size).min(steps.len());
        sight = play_batch(
            rt, alloc, gate, &mut desk, shared, steps, first, end, ahead, sight,
        );
    }
}

// Guesses from the first position up to the end, and hands them in. While these are too far ahead of what is committed, it guesses what is to be committed
// next instead, whoever claimed it.
fn play_batch<J: Run, G: Gate, R: Wait>(
    rt: &R,
    alloc: Global,
    gate: &G,
    desk: &mut Desk,
    shared: &SharedBoard<J>,
    steps: &[Step],
    first: usize,
    end: usize,
    ahead: usize,
    sight: Option<Sight>,
) -> Option<Sight>
    requires range { AllInRange steps.now }
    requires end { end ≤ length steps.now }
    requires sight { IfSome sight (λ s. s.snapshot ≡ world_after J.base.plain J.steps s.count) }
    ensures { IfSome result (λ s. s.snapshot ≡ world_after J.base.plain J.steps s.count) }
{
    let mut sight = sight;
    'help: for _ in 0..MOST_HELPS {
        let Some((from, to)) = next_up(&sight, first, end) else {
            break;
        };
        sight = guess_and_hand_in(rt, alloc, gate, desk, shared, steps, from, to, ahead, sight);
    }
    if is_done(&sight, end) {
        return sight;
    }
    guess_and_hand_in(
        rt, alloc, gate, desk, shared, steps, first, end, ahead, sight,
    )
}

// As many positions as from the first one up to the end, which are to be committed next, where the first one is too far ahead of them.
fn next_up(sight: &Option<Sight>, first: usize, end: usize) -> Option<(usize, usize)>
    ensures { IfSome result (λ r. r.1 ≤ end) }
{
    match sight {
        Some(sight) if first >= sight.limit => {
            let to = sight
                .count
                .saturating_add(end.saturating_sub(first))
                .min(first)
                .min(end);
            Some((sight.count, to))
        }
        _ => None,
    }
}

// Whether all positions below the end are committed.
fn is_done(sight: &Option<Sight>, end: usize) -> bool {
    match sight {
        Some(sight) => end <= sight.count,
        None => false,
    }
}

// Guesses from the first position up to the end on what is seen, and hands them in.
fn guess_and_hand_in<J: Run, G: Gate, R: Wait>(
    rt: &R,
    alloc: Global,
    gate: &G,
    desk: &mut Desk,
    shared: &SharedBoard<J>,
    steps: &[Step],
    first: usize,
    end: usize,
    ahead: usize,
    sight: Option<Sight>,
) -> Option<Sight>
    requires range { AllInRange steps.now }
    requires end { end ≤ length steps.now }
    requires sight { IfSome sight (λ s. s.snapshot ≡ world_after J.base.plain J.steps s.count) }
    ensures { IfSome result (λ s. s.snapshot ≡ world_after J.base.plain J.steps s.count) }
{
    let mut found = room(alloc, end.saturating_sub(first));
    let seen = guess_on(alloc, gate, desk, sight, steps, first, end, &mut found);
    shared.hand_in(rt, alloc, desk, first, end, found, seen, ahead)
}

// Room for so many guesses, or for none.
fn room(alloc: Global, count: usize) -> Vec<(usize, Guess)>
    ensures { result.items ≡ [] }
{
    match Vec::with_capacity(alloc, count) {
        Ok(found) => found,
        Err(_) => Vec::new(alloc),
    }
}

// Guesses on what is seen, of which nothing is kept, and how many steps were committed then.
fn guess_on<G: Gate>(
    alloc: Global,
    gate: &G,
    desk: &mut Desk,
    sight: Option<Sight>,
    steps: &[Step],
    first: usize,
    end: usize,
    found: &mut Vec<(usize, Guess)>,
) -> usize
    requires range { AllInRange steps.now }
    requires end { end ≤ length steps.now }
    requires empty { found.old.items ≡ [] }
    ensures found { (at : ℕ → Plain) → IfSome sight (λ s. s.snapshot ≡ at s.count) → All (λ f. f.1.before ≡ at result) found.new.items }
{
    match sight {
        Some(sight) => {
            guess_batch(alloc, gate, desk, &sight.snapshot, steps, first, end, found);
            sight.count
        }
        None => 0,
    }
}

// Guesses on a snapshot, each with its position.
fn guess_batch<G: Gate>(
    alloc: Global,
    gate: &G,
    desk: &mut Desk,
    snapshot: &SharedSnapshot,
    steps: &[Step],
    first: usize,
    end: usize,
    found: &mut Vec<(usize, Guess)>,
)
    requires range { AllInRange steps.now }
    requires end { end ≤ length steps.now }
    requires empty { found.old.items ≡ [] }
    ensures { All (λ f. f.1.before ≡ snapshot.now) found.new.items }
{
    'at: for at in first..end {
        if let Some(guess) = guess_at(alloc, gate, desk, snapshot, steps, at) {
            note(found, at, guess);
        }
    }
}

// Keeps a guess for a position, if there is memory for it.
fn note(found: &mut Vec<(usize, Guess)>, at: usize, guess: Guess)
    ensures { (w : Plain) → guess.before ≡ w → All (λ f. f.1.before ≡ w) found.old.items → All (λ f. f.1.before ≡ w) found.new.items }
{
    if found.reserve(1).is_ok() {
        found.push_reserved((at, guess));
    }
}
