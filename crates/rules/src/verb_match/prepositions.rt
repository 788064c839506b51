//! Prepositions among words (Programmer's Manual, "The Built-in Command Parser").
ghost use Rattle.std.specs.Prelude.{◌≡◌, option_map, map, ℕ};
ghost use Rattle.spec_world.specs.Prepositions.{find_preposition as find_preposition_of, longest as longest_of, among as among_of, stands_first as stands_first_of, from_set, either_longer};
ghost use Rattle.rules.specs.VerbMatchMeant.{preposition_of, begun_of};

use moo_value::text::Text;
use view::words::is_word;

/// A preposition that stands among words.
#[derive(Clone, Copy, PartialEq, Eq, Debug)]
pub struct Preposition {
    /// How many words stand before it.
    pub start: usize,
    /// How many words it has, 1 to 3.
    pub size: usize,
    /// The number of the set of prepositions that stand for each other, 0 to 14.
    pub set: usize,
}

/// The sets of prepositions that stand for each other, by their numbers, each with its members.
static SETS: [&[&[&str]]; 15] = [
    &[&["with"], &["using"]],
    &[&["at"], &["to"]],
    &[&["in", "front", "of"]],
    &[&["in"], &["inside"], &["into"]],
    &[&["on", "top", "of"], &["on"], &["onto"], &["upon"]],
    &[&["out", "of"], &["from", "inside"], &["from"]],
    &[&["over"]],
    &[&["through"]],
    &[&["under"], &["underneath"], &["beneath"]],
    &[&["behind"]],
    &[&["beside"]],
    &[&["for"], &["about"]],
    &[&["is"]],
    &[&["as"]],
    &[&["off"], &["off", "of"]],
];

// A preposition at the front of words.
#[derive(Clone, Copy)]
struct Begun {
    size: usize,
    set: usize,
}

/// The earliest preposition among words, and of those at one place the longest. Case is ignored.
#[tactic(auto, using(crate::proofs::VerbMatchStanding::found_here, crate::proofs::VerbMatchStanding::found_later, crate::proofs::VerbMatchStanding::none_left, crate::proofs::VerbMatchStanding::not_moved))]
pub fn find_preposition(words: &[Text]) -> Option<Preposition>
    ensures { option_map preposition_of result ≡ find_preposition_of words.now }
{
    for start in 0..words.len() {
        if let Some(begun) = longest(&words[start..]) {
            return Some(Preposition {
                start,
                size: begun.size,
                set: begun.set,
            });
        }
    }
    None
}

// The longest preposition at the front of words.
fn longest(words: &[Text]) -> Option<Begun>
    ensures { option_map begun_of result ≡ longest_of words.now }
{
    longest_in(&SETS, words)
}

// The longest one of several sets, numbered from 0.
#[tactic(auto, using(crate::proofs::VerbMatchStanding::either_assoc))]
fn longest_in(sets: &[&[&[&str]]], words: &[Text]) -> Option<Begun>
    ensures { option_map begun_of result ≡ from_set 0 (map (λ s. map (λ p. map (λ t. t.now) p.now) s.now) sets.now) words.now }
{
    let mut found = None;
    for (set, members) in sets.iter().enumerate() {
        found = longer(found, among(set, members, words));
    }
    found
}

// The longest one of a set.
#[tactic(auto, using(crate::proofs::VerbMatchStanding::either_assoc))]
fn among(set: usize, members: &[&[&str]], words: &[Text]) -> Option<Begun>
    ensures { option_map begun_of result ≡ among_of set (map (λ p. map (λ t. t.now) p.now) members.now) words.now }
{
    let mut found = None;
    for member in members {
        if stands_first(member, words) {
            let size = member.len();
            found = longer(found, Some(Begun { size, set }));
        }
    }
    found
}

// The longer of two, and of two that are as long the second.
fn longer(a: Option<Begun>, b: Option<Begun>) -> Option<Begun>
    ensures { option_map begun_of result ≡ either_longer (option_map begun_of a) (option_map begun_of b) }
{
    match (a, b) {
        (None, _) => b,
        (Some(_), None) => a,
        (Some(x), Some(y)) => { if y.size < x.size { a } else { b } }
    }
}

// Whether words begin with a preposition.
fn stands_first(member: &[&str], words: &[Text]) -> bool
    ensures { result ≡ stands_first_of (map (λ t. t.now) member.now) words.now }
{
    if member.len() > words.len() {
        return false;
    }
    for (index, part) in member.iter().enumerate() {
        if !is_word(words[index].as_str().as_bytes(), part.as_bytes()) {
            return false;
        }
    }
    true
}
