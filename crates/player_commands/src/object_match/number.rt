//! Objects named by their numbers.
ghost use Rattle.std.specs.Prelude.{◌≡◌, ◌≤◌, ◌+◌, ◌-◌, ◌*◌, ℕ, true, option_map};
ghost use Rattle.spec_world.specs.Naming.{digits_number, is_digit as is_digit_of, number_after, negated, not_negated};
ghost use Rattle.spec_world.specs.Naming.{signed_number as signed_number_of, object_number as object_number_of};
ghost use Rattle.player_commands.specs.Numbers.{IsNumberOf, capped};

/// More than any object's number.
const BEYOND: u64 = 4_294_967_296;

/// The number that `#`, perhaps `-`, and digits say, where it is one that an object may have.
pub(crate) fn object_number(text: &[u8]) -> Option<i32>
    ensures { IsNumberOf (object_number_of text.now) result }
{
    match text.split_first() {
        Some((b'#', rest)) => signed_number(rest),
        _ => None,
    }
}

fn signed_number(text: &[u8]) -> Option<i32>
    ensures { IsNumberOf (signed_number_of text.now) result }
{
    match text.split_first() {
        Some((b'-', rest)) => below_zero(number(rest)?),
        _ => from_zero(number(text)?),
    }
}

// No object has a negative number; 0 is no negative one.
fn below_zero(number: u64) -> Option<i32>
    ensures { (n : ℕ) → capped n ≡ number → IsNumberOf (negated (Some n)) result }
{
    if number == 0 {
        return Some(0);
    }
    None
}

fn from_zero(number: u64) -> Option<i32>
    ensures { (n : ℕ) → capped n ≡ number → IsNumberOf (not_negated (Some n)) result }
{
    i32::try_from(number).ok()
}

// The number that digits say, or the one beyond all objects' where it is more.
#[tactic(auto, using(crate::proofs::Numbers::digits_of))]
fn number(text: &[u8]) -> Option<u64>
    ensures { result ≡ option_map capped (digits_number text.now) }
{
    if text.is_empty() {
        return None;
    }
    digits(text)
}

#[tactic(auto, using(crate::proofs::Numbers::no_digit, crate::proofs::Numbers::next_at, crate::proofs::Numbers::last_digit))]
fn digits(text: &[u8]) -> Option<u64>
    ensures { result ≡ option_map capped (number_after 0 text.now) }
{
    let mut number = 0;
    for byte in text {
        if !is_digit(*byte) {
            return None;
        }
        number = with_digit(number, *byte);
    }
    Some(number)
}

fn is_digit(byte: u8) -> bool
    ensures { result ≡ is_digit_of byte }
{
    b'0' <= byte && byte <= b'9'
}

fn with_digit(number: u64, digit: u8) -> u64
    requires number { number ≤ 4294967296 }
    requires digit { is_digit_of digit ≡ true }
    ensures { result ≡ capped (number * 10 + (digit - 48)) }
{
    BEYOND.min(number * 10 + u64::from(digit - b'0'))
}
