//! A text that is cut in two at a byte.
ghost use Rattle.std.specs.Prelude.{◌≡◌, ◌==◌, ◌<◌, ◌∷◌, ◌++◌, length, position, not, IsTrue, IfSome, MatchOption};
ghost use Rattle.std.specs.List.{list_all};
ghost use Rattle.spec_value.specs.Datum.{Text};

use memchr::memchr;

/// What stands before the first such byte, and what behind it.
pub fn cut_at(text: &[u8], stop: u8) -> Option<(&[u8], &[u8])>
    ensures shorter { IfSome result (λ p. length p.1.now < length text.now) }
    ensures between { (t r : Text) → IsTrue (list_all (λ c. not (c == stop)) t) → text.now ≡ t ++ stop ∷ r → MatchOption result ⊥ (λ p. (p.0.now ≡ t) × (p.1.now ≡ r)) }
    ensures last { (t : Text) → IsTrue (list_all (λ c. not (c == stop)) t) → text.now ≡ t → MatchOption result (Unit {0}) (λ p. ⊥) }
    ensures cuts { MatchOption result (IsTrue (list_all (λ c. not (c == stop)) text.now)) (λ p. IsTrue (list_all (λ c. not (c == stop)) p.0.now) × (text.now ≡ p.0.now ++ stop ∷ p.1.now)) }
{
    let Some(end) = place_of(text, stop) else {
        return None;
    };
    Some((&text[..end], &text[end + 1..]))
}

// Where the first such byte stands.
fn place_of(text: &[u8], stop: u8) -> Option<usize>
    ensures within { IfSome result (λ i. i < length text.now) }
    ensures value { result ≡ position (λ c. c == stop) text.now }
{
    memchr(stop, text)
}
