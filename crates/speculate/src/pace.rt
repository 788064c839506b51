//! How quickly the steps of a list go by several workers and by one, and so who plays the next ones.
ghost use Rattle.std.specs.Prelude.{◌≤◌, ◌<◌};

use std::time::Instant;

// One worker begins, with so few steps, and plays twice as many each time up to the most. In a rest it begins with more.
const ALONE: usize = 1;

const ALONE_IN_REST: usize = 64;

const MOST_ALONE: usize = 1024;

// Once it has played for so many nanoseconds it is told how long a step takes. That is what it costs to start threads, and in its first steps it has nothing
// at hand yet.
const WARM: u64 = 200_000;

// Steps that take one worker fewer nanoseconds than this are seldom played more quickly by several. They are tried where so many steps are left; steps that
// take longer, where one worker would take so many nanoseconds for all that are left for each thread that is started.
const LIGHT: u64 = 6_000;

const MANY: usize = 4096;

const LONG: u64 = 250_000;

// Several workers play so many steps in the first try, and twice as many in each further one up to the second number; as long as they are the quicker they
// then play so many, and twice as many each time up to the most.
const FIRST: usize = 256;

const TOGETHER: usize = 4096;

const MOST_TOGETHER: usize = 32768;

// In lanes they play no fewer, as long as more are left.
const LEAST_IN_LANES: usize = 2048;

// Where several were slower, one goes on for a multiple of the steps that it could have played in the time that was lost; then several are tried again. The
// lighter the steps are, the greater is the multiple: so many nanoseconds over what a step takes, within two bounds. Each time that several are slower again
// it is doubled, up to so many times.
const REST: u64 = 65_536;

const LEAST_MULTIPLE: u64 = 4;

const MOST_MULTIPLE: u64 = 64;

const MOST_TIMES: usize = 16;

// The bounds of the number of steps of such a rest.
const LEAST_REST: usize = 512;

const MOST_REST: usize = 1_048_576;

/// Who plays steps.
#[derive(Clone, Copy, PartialEq, Eq, Debug)]
pub(crate) enum Way {
    /// The caller alone.
    Alone,
    /// Several workers on a board.
    Board,
    /// Several workers, each in a lane.
    Lanes,
}

impl Way {
    /// Whether several workers do.
    pub(crate) fn is_by_several(&self) -> bool {
        match self {
            Way::Alone => false,
            Way::Board | Way::Lanes => true,
        }
    }
}

/// What is known of the pace of a list under way. One worker begins it. Several are tried, and from then on those play that were quicker.
#[derive(Drop)]
pub(crate) struct Pace {
    workers: u64,
    // Nanoseconds of a step by several workers in the last stretch that they played, and how many steps that had.
    together: Option<u64>,
    tried: usize,
    // The same by one worker, in its last stretch, and the least of its last two.
    last: Option<u64>,
    alone: Option<u64>,
    // How many nanoseconds one worker has played since its pace was last unknown.
    spent: u64,
    // How many steps the next stretches have.
    next_together: usize,
    next_alone: usize,
    // So many steps are still one worker's, whose steps took so many nanoseconds when that began; and so many times as long as usual it goes on after the next
    // try.
    rest: usize,
    rested: u64,
    times: usize,
}

impl Pace {
    /// Nothing is known yet.
    pub(crate) fn new(workers: usize) -> Pace {
        Pace {
            workers: workers.max(1) as u64,
            together: None,
            tried: 0,
            last: None,
            alone: None,
            spent: 0,
            next_together: FIRST,
            next_alone: ALONE,
            rest: 0,
            rested: 0,
            times: 1,
        }
    }

    /// Whether several workers are to play the next stretch, where so many steps are left.
    pub(crate) fn is_for_several(&self, left: usize) -> bool {
        let Some(alone) = self.alone else {
            return false;
        };
        if self.rest > 0 || self.spent < WARM {
            return false;
        }
        match self.together {
            Some(together) => together <= alone,
            None => self.is_worth_a_try(alone, left),
        }
    }

    // Whether so many steps that are left are worth a try, where one worker takes so many nanoseconds for each.
    fn is_worth_a_try(&self, alone: u64, left: usize) -> bool {
        if alone < LIGHT {
            left >= MANY
        } else {
            alone.saturating_mul(left as u64) >= LONG.saturating_mul(self.workers)
        }
    }

    /// How many of the steps that are left the next stretch has. A stretch is not followed by one that is shorter.
    pub(crate) fn count(&self, left: usize, way: Way) -> usize
        ensures some { 0 < left → 0 < result }
        ensures most { result ≤ left }
    {
        let next = self.next(way);
        if left / 2 < next {
            left
        } else {
            next.max(1).min(left)
        }
    }

    // How many steps the next stretch has, where more are left.
    fn next(&self, way: Way) -> usize {
        match way {
            Way::Alone => self.next_alone,
            Way::Board => self.next_together,
            Way::Lanes => self.next_together.max(LEAST_IN_LANES),
        }
    }

    /// So many steps were played between two moments.
    pub(crate) fn note(
        &mut self,
        count: usize,
        was_by_several: bool,
        start: Option<Instant>,
        end: Option<Instant>,
    ) {
        let all = nanoseconds(start, end);
        let each = all / (count.max(1) as u64);
        if was_by_several {
            self.note_together(each, count);
        } else {
            self.spent = self.spent.saturating_add(all);
            self.note_alone(each, count);
        }
    }

    // Where several were the quicker, one worker's pace is found anew: it may have been of steps that found nothing at hand yet, or of others.
    fn note_together(&mut self, each: u64, count: usize) {
        self.together = Some(each);
        self.tried = count;
        self.next_together = self
            .next_together
            .saturating_mul(2)
            .clamp(TOGETHER, MOST_TOGETHER);
        let Some(alone) = self.alone else {
            return;
        };
        if each > alone {
            self.begin_rest(each, alone);
            return;
        }
        self.times = 1;
        self.last = None;
        self.alone = None;
        self.spent = 0;
        self.next_alone = ALONE;
    }

    fn note_alone(&mut self, each: u64, count: usize) {
        let alone = each.min(self.last.unwrap_or(each));
        self.alone = Some(alone);
        self.last = Some(each);
        self.next_alone = self.next_alone.saturating_mul(2).min(MOST_ALONE);
        if self.rest > 0 {
            self.rest_on(alone, count);
            return;
        }
        match self.together {
            Some(together) if self.spent >= WARM && together > alone => {
                self.begin_rest(together, alone);
            }
            _ => {}
        }
    }

    // Several took so long for a step, and one less: one goes on for a while. The next try is longer than the last one, so that what it takes to start
    // threads counts less in it.
    fn begin_rest(&mut self, together: u64, alone: u64) {
        let tried = self.tried.min(TOGETHER) as u64;
        let lost = together.saturating_sub(alone).saturating_mul(tried) / alone.max(1);
        let multiple = (REST / alone.max(1)).clamp(LEAST_MULTIPLE, MOST_MULTIPLE);
        let rest = usize::try_from(lost.saturating_mul(multiple)).unwrap_or(MOST_REST);
        self.rest = rest.clamp(LEAST_REST, MOST_REST).saturating_mul(self.times);
        self.rested = alone;
        self.times = self.times.saturating_mul(2).min(MOST_TIMES);
        self.next_together = FIRST.saturating_mul(self.times).min(TOGETHER);
        self.next_alone = ALONE_IN_REST;
    }

    // So many steps of that while are over. At its end, and where steps have become twice as heavy, several are tried again.
    fn rest_on(&mut self, alone: u64, count: usize) {
        self.rest = self.rest.saturating_sub(count);
        if alone / 2 > self.rested {
            self.rest = 0;
            self.times = 1;
            self.next_together = FIRST;
        }
        if self.rest == 0 {
            self.together = None;
        }
    }
}

// How many nanoseconds lie between two moments: very many where they are not known. Then several workers and one take turns.
fn nanoseconds(start: Option<Instant>, end: Option<Instant>) -> u64 {
    match (start, end) {
        (Some(start), Some(end)) => {
            u64::try_from(end.duration_since(start).as_nanos()).unwrap_or(u64::MAX)
        }
        _ => u64::MAX,
    }
}
