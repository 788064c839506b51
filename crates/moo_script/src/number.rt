//! Numbers of scripts and of command lines.
ghost use Rattle.std.specs.Prelude.{◌≡◌, ◌+◌, ◌*◌, ◌<◌, IsTrue, IsFalse, MatchOption};
ghost use Rattle.std.specs.List.{list_all};
ghost use Rattle.std.specs.Char.{is_ascii_digit};
ghost use Rattle.moo_script.specs.Keys.{is_hexadecimal as is_hexadecimal_of, hexadecimal_value as hexadecimal_value_of, is_key, Spells};
ghost use Rattle.moo_script.specs.Numbers.{has_needless_zero as has_needless_zero_of, is_number, number_value};

/// The number that these digits spell, without needless zeros; the greatest `u32` where it is greater. None for other text.
pub fn read_number(digits: &[u8]) -> Option<u32>
    ensures { MatchOption result (IsFalse (is_number digits.now)) (λ n. IsTrue (is_number digits.now) × (n ≡ number_value digits.now)) }
{
    if digits.is_empty() || has_needless_zero(digits) {
        return None;
    }
    read_digits(digits)
}

fn has_needless_zero(digits: &[u8]) -> bool
    ensures { result ≡ has_needless_zero_of digits.now }
{
    1 < digits.len() && digits[0] == b'0'
}

#[tactic(auto, using(crate::proofs::Digits::not_spelled, crate::proofs::Digits::goes_on, crate::proofs::Digits::stops))]
fn read_digits(digits: &[u8]) -> Option<u32>
    ensures { MatchOption result (IsFalse (list_all is_ascii_digit digits.now)) (λ n. IsTrue (list_all is_ascii_digit digits.now) × (n ≡ number_value digits.now)) }
{
    let mut sum = 0u32;
    for digit in digits {
        if !digit.is_ascii_digit() {
            return None;
        }
        sum = sum
            .saturating_mul(10)
            .saturating_add(u32::from(*digit - b'0'));
    }
    Some(sum)
}

/// The 32 bytes that 64 hexadecimal digits in lower case spell.
pub fn read_key(digits: &[u8]) -> Option<[u8; 32]>
    ensures { MatchOption result (IsFalse (is_key digits.now)) (λ key. IsTrue (is_key digits.now) × Spells digits.now key) }
{
    if digits.len() != 64 || !are_hexadecimal(digits) {
        return None;
    }
    let mut key = [0u8; 32];
    for i in 0..32usize {
        key[i] = spelled_byte(digits[2 * i], digits[2 * i + 1]);
    }
    Some(key)
}

fn are_hexadecimal(digits: &[u8]) -> bool
    ensures { result ≡ list_all is_hexadecimal_of digits.now }
{
    digits.iter().all(|digit| is_hexadecimal(*digit))
}

fn is_hexadecimal(digit: u8) -> bool
    ensures { result ≡ is_hexadecimal_of digit }
{
    matches!(digit, b'0'..=b'9' | b'a'..=b'f')
}

fn spelled_byte(high: u8, low: u8) -> u8
    requires high { IsTrue (is_hexadecimal_of high) }
    requires low { IsTrue (is_hexadecimal_of low) }
    ensures { result ≡ hexadecimal_value_of high * 16 + hexadecimal_value_of low }
{
    hexadecimal_value(high) * 16 + hexadecimal_value(low)
}

fn hexadecimal_value(digit: u8) -> u8
    requires { IsTrue (is_hexadecimal_of digit) }
    ensures value { result ≡ hexadecimal_value_of digit }
    ensures small { result < 16 }
{
    if digit <= b'9' {
        digit - b'0'
    } else {
        digit - b'a' + 10
    }
}
