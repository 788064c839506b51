//! A verb among an object's own.
ghost use Rattle.std.specs.Prelude.{◌≡◌, ◌<◌, length, MatchOption, IfSome, Some, None};
ghost use Rattle.spec_world.specs.Permissions.{in_place};
ghost use Rattle.spec_moo.specs.Natives.Verbs.{verb_place, place_of_word as place_of_word_of};

use moo_arith::index::natural;
use moo_value::value::{Shown, Value};
use view::verb::Verb;
use view::verb_names::matches;

#[tactic(auto, using(rules::proofs::Places::stands_there, crate::proofs::Places::placed_there, crate::proofs::Places::placed_nowhere))]
/// A verb with its place from 0, by a word that one of its names spells, or by its place from 1.
pub fn own_verb<'a>(verbs: &'a [Verb], which: &Value) -> Option<(usize, &'a Verb)>
    ensures { MatchOption result (verb_place verbs.now which.now ≡ None) (λ f. (verb_place verbs.now which.now ≡ Some f.0) × (in_place verbs.now f.0 ≡ Some f.1.now)) }
{
    match which.shown() {
        Shown::Text(word) => {
            let place = place_of_word(verbs, word)?;
            Some((place, &verbs[place]))
        }
        Shown::Integer(number) if number > 0 => at_place(verbs, natural(number) - 1),
        _ => None,
    }
}

#[tactic(auto, using(rules::proofs::Places::stands_there, rules::proofs::Places::stands_none))]
fn at_place(verbs: &[Verb], place: usize) -> Option<(usize, &Verb)>
    ensures { MatchOption result (in_place verbs.now place ≡ None) (λ f. (f.0 ≡ place) × (in_place verbs.now place ≡ Some f.1.now)) }
{
    if place < verbs.len() {
        Some((place, &verbs[place]))
    } else {
        None
    }
}

fn place_of_word(verbs: &[Verb], word: &str) -> Option<usize>
    ensures place { result ≡ place_of_word_of word.now verbs.now }
    ensures inside { IfSome result (λ n. n < length verbs.now) }
{
    for (place, verb) in verbs.iter().enumerate() {
        if matches(verb.names.as_str(), word) {
            return Some(place);
        }
    }
    None
}
