//! What stands behind the first word of a line, and at its front.
ghost use Rattle.std.specs.Prelude.{◌≡◌, ◌∷◌, ◌≤◌, drop, length, false, Some, MatchOption};
ghost use Rattle.spec_value.specs.Datum.{Text as Characters};
ghost use Rattle.spec_world.specs.Words.{after_first as after_first_of, remainders, without_spaces};
ghost use Rattle.player_commands.specs.Behind.{left};

use crate::command_lines::cutting::{Place, Sign};

/// Where the first word of a line is read.
#[derive(Clone, Copy)]
pub(crate) struct Standing {
    pub place: Place,
    /// Whether a backslash stands before the next character.
    pub escaped: bool,
}

impl Standing {
    fn at(place: Place) -> Option<Standing>
        ensures { result ≡ Some (record { place = place; escaped = false }) }
    {
        Some(Standing {
            place,
            escaped: false,
        })
    }

    /// Behind one more character; none where the word has ended with it.
    fn behind(self, byte: u8) -> Option<Standing>
        ensures { MatchOption result ((t : Characters) → left self (remainders (byte ∷ t)) ≡ without_spaces t) (λ s. (t : Characters) → left self (remainders (byte ∷ t)) ≡ left s (remainders t)) }
    {
        let Standing { place, escaped } = self;
        if escaped {
            return match place {
                Place::Between | Place::Bare => Standing::at(Place::Bare),
                Place::Quoted => Standing::at(Place::Quoted),
            };
        }
        match (Sign::of(byte), place) {
            (Sign::Space, Place::Bare) => None,
            (Sign::Space, _) => Standing::at(place),
            (Sign::Quote, Place::Between | Place::Bare) => Standing::at(Place::Quoted),
            (Sign::Quote, Place::Quoted) => Standing::at(Place::Bare),
            (Sign::Backslash, _) => Some(Standing {
                place,
                escaped: true,
            }),
            (Sign::Other, Place::Between | Place::Bare) => Standing::at(Place::Bare),
            (Sign::Other, Place::Quoted) => Standing::at(Place::Quoted),
        }
    }
}

/// How many spaces stand at the front.
#[tactic(auto, using(crate::proofs::Spaces::one_space, crate::proofs::Spaces::no_space, crate::proofs::Spaces::all_passed))]
pub(crate) fn spaces(text: &[u8]) -> usize
    ensures within { result ≤ length text.now }
    ensures rest { drop result text.now ≡ without_spaces text.now }
{
    for i in 0..text.len() {
        if text[i] != b' ' {
            return i;
        }
    }
    text.len()
}

/// How much of a line stands before what was typed behind its first word and the spaces after it.
#[tactic(auto, using(crate::proofs::Spaces::at_the_start, crate::proofs::Spaces::next_character))]
pub(crate) fn first_part(line: &[u8]) -> usize
    ensures within { result ≤ length line.now }
    ensures rest { drop result line.now ≡ after_first_of line.now }
{
    let mut standing = Standing {
        place: Place::Between,
        escaped: false,
    };
    for i in 0..line.len() {
        match standing.behind(line[i]) {
            Some(next) => standing = next,
            None => return i + 1 + spaces(&line[i + 1..]),
        }
    }
    line.len()
}
