//! The Two-Way search of Crochemore and Perrin: linear in both texts, and without memory. A text is read from either end, with the
//! case of its letters or without, so a search for the last place is one for the first place in both texts read backward.
ghost use Rattle.std.specs.Prelude.{◌≡◌, ◌≢◌, ◌↔◌, ℕ, ◌+◌, ◌-◌, ◌<◌, ◌≤◌, length, IsTrue};
ghost use Rattle.memchr.specs.Critical.{IsSuffixAt, IsCutPlace};
ghost use Rattle.memchr.specs.Find.{IsFirst};
ghost use Rattle.memchr.specs.TwoWay.{OccursIn};
ghost use Rattle.moo_text.specs.TwoWay.{read_by, precedes, IsCutOf};

use crate::search::fold;
use std::cmp::Ordering;

/// How a text is read: from its end or from its front, with the case of letters or without.
#[derive(Clone, Copy)]
pub(crate) struct Reading {
    pub(crate) backward: bool,
    pub(crate) case_counts: bool,
}

/// Where a sought text is cut, and what that gives a search.
#[derive(Clone, Copy)]
pub(crate) struct Cut {
    // The characters from here on are compared first.
    place: usize,
    // How far the search moves where all of them stand.
    shift: usize,
    // How many characters at the front are then known to stand.
    known: usize,
}

// The greatest of a text's suffixes by an order, and its period.
#[derive(Clone, Copy)]
struct Suffix {
    place: usize,
    period: usize,
}

#[inline(always)]
fn read(text: &[u8], place: usize, reading: Reading) -> u8
    requires { place < length text.now }
    ensures { result ≡ read_by reading text.now place }
{
    let byte = if reading.backward {
        text[text.len() - 1 - place]
    } else {
        text[place]
    };
    if reading.case_counts {
        byte
    } else {
        fold(byte)
    }
}

/// Cuts a text that is sought: at the later of its greatest suffixes by the order of characters and by the order turned round.
pub(crate) fn divide(sought: &[u8], reading: Reading) -> Cut
    requires { 0 < length sought.now }
    ensures { IsCutOf (read_by reading sought.now) (length sought.now) result }
{
    let least = greatest_suffix(sought, reading, true);
    let most = greatest_suffix(sought, reading, false);
    if least.place > most.place {
        divide_at(sought, reading, least)
    } else {
        divide_at(sought, reading, most)
    }
}

fn divide_at(sought: &[u8], reading: Reading, suffix: Suffix) -> Cut
    requires { IsCutPlace (read_by reading sought.now) (length sought.now) suffix.place suffix.period }
    ensures { IsCutOf (read_by reading sought.now) (length sought.now) result }
{
    let place = suffix.place;
    let behind = sought.len() - place;
    let long = Cut {
        place,
        shift: place.max(behind),
        known: 0,
    };
    if place >= behind {
        return long;
    }
    if !repeats(sought, reading, suffix) {
        return long;
    }
    Cut {
        place,
        shift: suffix.period,
        known: sought.len() - suffix.period,
    }
}

// Whether the characters before the suffix stand a period later too.
fn repeats(sought: &[u8], reading: Reading, suffix: Suffix) -> bool
    requires { suffix.place + suffix.period ≤ length sought.now }
    ensures { IsTrue result ↔ ((k : ℕ) → k < suffix.place → read_by reading sought.now k ≡ read_by reading sought.now (k + suffix.period)) }
{
    for k in 0..suffix.place {
        if read(sought, k, reading) != read(sought, k + suffix.period, reading) {
            return false;
        }
    }
    true
}

fn greatest_suffix(sought: &[u8], reading: Reading, turned: bool) -> Suffix
    requires { 0 < length sought.now }
    ensures { IsSuffixAt (precedes turned) (read_by reading sought.now) (length sought.now) result.place result.period }
{
    let mut place = 0;
    let mut period = 1;
    let mut candidate = 1;
    let mut offset = 0;
    'scan: while candidate + offset < sought.len() {
        let known = read(sought, place + offset, reading);
        let other = read(sought, candidate + offset, reading);
        match order(known, other, turned) {
            Ordering::Less => {
                place = candidate;
                period = 1;
                candidate += 1;
                offset = 0;
            }
            Ordering::Greater => {
                candidate += offset + 1;
                offset = 0;
                period = candidate - place;
            }
            Ordering::Equal => {
                if offset + 1 == period {
                    candidate += period;
                    offset = 0;
                } else {
                    offset += 1;
                }
            }
        }
    }
    Suffix { place, period }
}

#[inline(always)]
fn order(left: u8, right: u8, turned: bool) -> Ordering
    ensures less { result ≡ Ordering.Less → precedes turned left right }
    ensures greater { result ≡ Ordering.Greater → precedes turned right left }
    ensures equal { result ≡ Ordering.Equal → left ≡ right }
{
    let (low, high) = if turned { (right, left) } else { (left, right) };
    if low < high {
        Ordering::Less
    } else if high < low {
        Ordering::Greater
    } else {
        Ordering::Equal
    }
}

/// The first place from one on at which a text stands, both read in one way.
pub(crate) fn first_from(
    text: &[u8],
    from: usize,
    sought: &[u8],
    cut: Cut,
    reading: Reading,
) -> Option<usize>
    requires cut { IsCutOf (read_by reading sought.now) (length sought.now) cut }
    requires start { from ≤ length text.now }
    ensures { IsFirst (OccursIn (read_by reading sought.now) (length sought.now) (read_by reading text.now) (length text.now)) from (length text.now + 1) result }
{
    let mut place = from;
    let mut known = 0;
    'places: while place + sought.len() <= text.len() {
        let stand = stand_to(text, place, sought, cut.place.max(known), reading);
        if stand < sought.len() {
            place += stand - cut.place + 1;
            known = 0;
            continue;
        }
        if stand_between(text, place, sought, known, cut.place, reading) {
            return Some(place);
        }
        place += cut.shift;
        known = cut.known;
    }
    None
}

// To where the characters of a sought text, from one on, stand at a place.
#[inline(always)]
fn stand_to(text: &[u8], place: usize, sought: &[u8], from: usize, reading: Reading) -> usize
    requires fits { place + length sought.now ≤ length text.now }
    requires from { from ≤ length sought.now }
    ensures low { from ≤ result }
    ensures high { result ≤ length sought.now }
    ensures same { (k : ℕ) → from ≤ k → k < result → read_by reading sought.now k ≡ read_by reading text.now (place + k) }
    ensures differs { result < length sought.now → read_by reading sought.now result ≢ read_by reading text.now (place + result) }
{
    let mut stand = from;
    'characters: while stand < sought.len()
        && read(sought, stand, reading) == read(text, place + stand, reading)
    {
        stand += 1;
    }
    stand
}

// Whether the characters of a sought text from one up to another stand at a place.
#[inline(always)]
fn stand_between(
    text: &[u8],
    place: usize,
    sought: &[u8],
    low: usize,
    high: usize,
    reading: Reading,
) -> bool
    requires fits { place + length sought.now ≤ length text.now }
    requires high { high ≤ length sought.now }
    ensures { IsTrue result ↔ ((k : ℕ) → low ≤ k → k < high → read_by reading sought.now k ≡ read_by reading text.now (place + k)) }
{
    for k in low..high {
        if read(sought, k, reading) != read(text, place + k, reading) {
            return false;
        }
    }
    true
}
