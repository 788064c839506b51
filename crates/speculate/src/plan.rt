//! Which lane each step of a list goes to.
use std::alloc::{AllocError, Global};
use task_step::step::{Event, Step};

// Connections whose numbers are so far apart go together.
const BUCKETS: usize = 4096;

// So many steps tell whether it is worth a try to look at all.
const LOOKED_AT: usize = 2048;

/// Whether lanes may pay: of the first steps no more than half are of one connection. No memory is taken.
pub(crate) fn is_spread(steps: &[Step]) -> bool {
    let count = steps.len().min(LOOKED_AT);
    let first = &steps[..count];
    count_of(first, leading(first)) <= count / 2
}

// The bucket that has more than half of the steps, if one has.
fn leading(steps: &[Step]) -> usize {
    let mut leader = 0;
    let mut votes = 0usize;
    for step in steps {
        let bucket = bucket_of(step);
        if votes == 0 {
            leader = bucket;
            votes = 1;
        } else if bucket == leader {
            votes = votes.saturating_add(1);
        } else {
            votes = votes.saturating_sub(1);
        }
    }
    leader
}

// How many of the steps a bucket has.
fn count_of(steps: &[Step], bucket: usize) -> usize {
    let mut count = 0usize;
    for step in steps {
        if bucket_of(step) == bucket {
            count = count.saturating_add(1);
        }
    }
    count
}

/// The colors of steps, which are below the number of lanes: the steps of one connection have one color, and each color about as many as the others. None where so
/// many are of one connection that lanes do not pay, and after want of memory.
pub(crate) fn colors(alloc: Global, steps: &[Step], lanes: usize) -> Option<Vec<u8>> {
    let counts = counts(alloc, steps).ok()?;
    if !are_many(&counts, steps.len()) {
        return None;
    }
    let shares = shares(alloc, &counts, steps.len(), lanes).ok()?;
    painted(alloc, steps, &shares).ok()
}

// Whether no bucket has more than half of so many steps.
fn are_many(counts: &Vec<usize>, all: usize) -> bool {
    for count in counts.as_slice() {
        if *count > all / 2 {
            return false;
        }
    }
    true
}

// The color of each step.
fn painted(alloc: Global, steps: &[Step], shares: &Vec<u8>) -> Result<Vec<u8>, AllocError> {
    let mut colors = Vec::with_capacity(alloc, steps.len())?;
    for step in steps {
        colors.push(share_of(shares, bucket_of(step)))?;
    }
    Ok(colors)
}

// How many steps there are in each bucket.
fn counts(alloc: Global, steps: &[Step]) -> Result<Vec<usize>, AllocError> {
    let mut counts = vec![in alloc; 0usize; BUCKETS]?;
    for step in steps {
        let bucket = bucket_of(step);
        if bucket < counts.len() {
            counts[bucket] = counts[bucket].saturating_add(1);
        }
    }
    Ok(counts)
}

// The color of each bucket. Buckets that follow one another have the same as long as these are no more than one lane's part.
fn shares(
    alloc: Global,
    counts: &Vec<usize>,
    all: usize,
    lanes: usize,
) -> Result<Vec<u8>, AllocError> {
    let mut shares = Vec::with_capacity(alloc, counts.len())?;
    let mut before = 0usize;
    for count in counts.as_slice() {
        let middle = before.saturating_add(*count / 2);
        shares.push(color_at(middle, all, lanes))?;
        before = before.saturating_add(*count);
    }
    Ok(shares)
}

// The color of what lies in the middle of so many.
fn color_at(middle: usize, all: usize, lanes: usize) -> u8 {
    let color = middle.saturating_mul(lanes) / all.max(1);
    let color = color.min(lanes.saturating_sub(1)).min(255);
    color as u8
}

// The color of a bucket.
#[inline(always)]
fn share_of(shares: &Vec<u8>, bucket: usize) -> u8 {
    match shares.get(bucket) {
        Some(color) => *color,
        None => 0,
    }
}

// The bucket of a step.
#[inline(always)]
fn bucket_of(step: &Step) -> usize {
    match &step.event {
        Event::Open(connection) | Event::Close(connection) => (*connection as usize) % BUCKETS,
        Event::Line(connection, _) => (*connection as usize) % BUCKETS,
        Event::Ready(_) => 0,
    }
}
