// Workers that claim on threads of their own.
ghost use Rattle.std.specs.Prelude.{◌≡◌, ◌<◌, ◌≤◌, true, length, All, IfOk};
ghost use Rattle.round_claims.specs.Claimed.{EachOnceBelow, fresh_seat, IsDone};

use super::*;
use std::alloc::{AllocError, Global};
use std::sync::atomic::{AtomicU64, Ordering};
use std::test::Fail;
use std::thread;
use std::thread::Threads;

// How often a worker looks whether the others have begun, too.
const LOOKS: u64 = 10_000;

fn wait_for_others(begun: &AtomicU64, workers: u64) {
    begun.fetch_add(1, Ordering::SeqCst);
    for _ in 0..LOOKS {
        if begun.load(Ordering::SeqCst) >= workers {
            return;
        }
        thread::yield_now();
    }
}

// One worker: it claims until nothing is left, with a pause now and then, and gives its seat back beside its positions.
fn work(
    alloc: Global,
    claims: &Claims,
    begun: &AtomicU64,
    workers: u64,
    mut seat: ClaimSeat,
) -> Result<(ClaimSeat, Vec<usize>), AllocError>
    requires { seat ≡ fresh_seat claims.now }
    ensures { IfOk result (λ done. IsDone claims.now done.0 × (done.1.items ≡ done.0.claimed)) }
{
    wait_for_others(begun, workers);
    let mut positions = Vec::new(alloc);
    'claim: while let Some(ticket) = claims.claim(&mut seat) {
        positions.push(ticket.position())?;
        if ticket.position() % 16 == 0 {
            thread::yield_now();
        }
    }
    Ok((seat, positions))
}

// Puts the seats together, and the positions with them: each position once.
fn union(
    claims: Claims,
    mut workers: Vec<Result<(ClaimSeat, Vec<usize>), AllocError>>,
) -> Result<Vec<usize>, AllocError>
    requires some { 0 < claims.seats }
    requires all { length workers.items ≡ claims.seats }
    requires done { All (λ worker. IfOk worker (λ done. IsDone claims done.0
        × (done.1.items ≡ done.0.claimed))) workers.items }
    ensures { IfOk result (λ all. EachOnceBelow claims.positions all.items) }
{
    let Some(first) = workers.pop() else {
        unreachable!()
    };
    let (mut seat, mut all) = first?;
    'worker: while let Some(worker) = workers.pop() {
        let (other, positions) = worker?;
        claims.merge(&mut seat, other);
        all.extend_from_slice(positions.as_slice())?;
    }
    claims.finish(seat);
    Ok(all)
}

// What the workers claimed, each on a thread of its own, is each position once.
fn claimed_by_threads<R: Threads + Sync>(
    rt: &R,
    alloc: Global,
    positions: usize,
    workers: usize,
) -> Result<Vec<usize>, Refusal>
    requires { positions ≤ MOST_POSITIONS }
    ensures { IfOk result (λ all. EachOnceBelow positions all.items) }
{
    let (claims, seats) = Claims::new(alloc, positions, workers)?;
    let begun = AtomicU64::new(0);
    let shared = &claims;
    let done = thread::map_vec(
        rt,
        seats,
        &|seat| work(alloc, shared, &begun, workers as u64, seat),
    )?;
    Ok(union(claims, done)?)
}

#[test]
fn each_position_is_claimed_once(rt: HostRuntime) -> Result<(), Fail> {
    for workers in [1, 2, 64] {
        let all = claimed_by_threads(&rt, rt.alloc(), 10_000, workers)?;
        assert_eq!(rt; all.len(), 10_000, "{workers} workers");
        let mut times = vec![in rt.alloc(); 0u8; 10_000]?;
        for position in &all {
            assert!(rt;
                *position < times.len(),
                "position {position} of {workers} workers"
            );
            times[*position] = times[*position].saturating_add(1);
        }
        assert!(rt; times.iter().all(|n| *n == 1), "{workers} workers");
    }
    Ok(())
}

#[test]
fn seats_are_1_to_64(rt: HostRuntime) -> Result<(), Fail> {
    for (positions, seats) in [(0, 0), (10, 0), (10, 65), (0, 65), (10, usize::MAX)] {
        let made = Claims::new(rt.alloc(), positions, seats);
        assert!(rt; matches!(made, Err(Refusal::Workers)), "{seats} seats");
    }
    Ok(())
}

#[test]
fn no_position_is_none(rt: HostRuntime) -> Result<(), Fail> {
    for workers in [1, 64] {
        let all = claimed_by_threads(&rt, rt.alloc(), 0, workers)?;
        assert_eq!(rt; all.len(), 0);
    }
    Ok(())
}

#[test]
fn refusals_are_told(rt: HostRuntime) -> Result<(), Fail> {
    for (refusal, text) in [
        (Refusal::Memory, "out of memory"),
        (Refusal::Workers, "the number of workers is not 1 to 64"),
    ] {
        let shown = format!(in rt.alloc(); "{refusal}")?;
        assert_eq!(rt; shown.as_str(), text);
    }
    Ok(())
}
