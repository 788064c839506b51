//! Numbers and objects as fields write them: no needless zeros, and a minus sign only before what is below zero.
ghost use Rattle.std.specs.Prelude.{◌≡◌, ◌↔◌, ◌≤◌, ◌<◌, ◌^◌, ◌≤ℤ◌, ℕ, ℤ, pos, List, [], ◌∷◌, map, length, drop, Some, IsTrue, IfOk, IfSome, MatchOption, option_map};
ghost use Rattle.std.specs.List.{list_all};
ghost use Rattle.std.specs.Fmt.{decimal, signed_decimal};
ghost use Rattle.spec_value.specs.Datum.{in_number_range};
ghost use Rattle.spec_world.specs.Checkpoint as text_of;
ghost use Rattle.moo_value.specs.Read.{digit_run, numeral_length, IsNoLonger, FindsNumber};
ghost use Rattle.spec_program.specs.Names.{is_digit};
ghost use Rattle.spec_faults.specs.Plain.{number_of, integer_of, is_number, is_integer, is_object, number_in, between_dots, is_path, path_in};
ghost use Rattle.line_fields.specs.Values.{are_places};
ghost use Rattle.line_fields.specs.Said.{Says, are_parts, TellsNumber};
ghost use Rattle.line_fields.specs.Numbers.{is_plain_number, is_signed, behind_sign, magnitude_behind};

use crate::cut::cut_at;
use std::alloc::{AllocError, Global};
use std::str;

// The greatest number of a part.
const GREATEST_PART: u64 = 9_223_372_036_854_775_807;

/// The number that is spelled so, if it is at least the first and at most the second.
pub fn natural(text: &[u8], least: u64, most: u64) -> Option<u64>
    ensures reads { (n : ℕ) → least ≤ n → n ≤ most → text.now ≡ decimal n → result ≡ Some n }
    ensures fault { Says result (is_number least most text.now) (number_of text.now) }
{
    if !is_plain(text) {
        return None;
    }
    let Ok(digits) = str::from_utf8(text) else {
        return None;
    };
    match digits.parse::<u64>() {
        Ok(number) if least <= number && number <= most => Some(number),
        _ => None,
    }
}

/// The integer of 32 bits that is spelled so.
pub fn integer(text: &[u8]) -> Option<i32>
    ensures reads { (z : ℤ) → IsTrue (in_number_range z) → text.now ≡ signed_decimal z → result ≡ Some z }
    ensures fault { result ≡ integer_of text.now }
{
    if has_sign(text) {
        signed(text)
    } else {
        unsigned(text)
    }
}

fn has_sign(text: &[u8]) -> bool
    ensures { result ≡ is_signed text.now }
{
    match text {
        [b'-', ..] => true,
        _ => false,
    }
}

fn unsigned(text: &[u8]) -> Option<i32>
    ensures reads { (n : ℕ) → IsTrue (in_number_range (pos n)) → text.now ≡ decimal n → result ≡ Some (pos n) }
    ensures tells { IfSome result (λ z. (text.now ≡ signed_decimal z) × IsTrue (in_number_range z)) }
{
    if !is_plain(text) {
        return None;
    }
    positive(magnitude(text))
}

fn positive(number: u64) -> Option<i32>
    ensures reads { IsTrue (in_number_range (pos number)) → result ≡ Some (pos number) }
    ensures tells { IfSome result (λ z. (z ≡ pos number) × (number < 2 ^ 31)) }
{
    if number < 2_147_483_648 {
        Some(number as i32)
    } else {
        None
    }
}

// The number that digits spell, or the greatest of 64 bits where that is less.
fn magnitude(digits: &[u8]) -> u64
    ensures { result ≡ magnitude_behind 0 digits.now }
{
    let mut number: u64 = 0;
    for digit in digits {
        let more = u64::from(digit.saturating_sub(b'0'));
        number = number.saturating_mul(10).saturating_add(more);
    }
    number
}

fn signed(text: &[u8]) -> Option<i32>
    ensures reads { (z : ℤ) → IsTrue (in_number_range z) → text.now ≡ signed_decimal z → result ≡ Some z }
    ensures tells { IfSome result (λ z. (text.now ≡ signed_decimal z) × IsTrue (in_number_range z)) }
{
    if !is_plain(digits_behind_sign(text)) {
        return None;
    }
    if is_minus_zero(text) {
        return None;
    }
    let Ok(number) = str::from_utf8(text) else {
        return None;
    };
    match number.parse::<i32>() {
        Ok(number) => Some(number),
        Err(_) => None,
    }
}

/// The integer of 32 bits whose digits stand at the front, and what stands behind them.
pub fn front_integer(bytes: &[u8]) -> Option<(i32, &[u8])>
    ensures shorter { IsNoLonger bytes.now result }
    ensures finds { FindsNumber bytes.now result }
    ensures tells { TellsNumber bytes.now result }
{
    let (digits, rest) = bytes.split_at(numeral_end(bytes));
    match integer(digits) {
        Some(number) => Some((number, rest)),
        None => None,
    }
}

// Where a number at the front ends.
fn numeral_end(bytes: &[u8]) -> usize
    ensures within { result ≤ length bytes.now }
    ensures value { result ≡ numeral_length bytes.now }
{
    match bytes {
        [b'-', rest @ ..] => digits_end(rest) + 1,
        _ => digits_end(bytes),
    }
}

// How many digits stand at the front.
fn digits_end(bytes: &[u8]) -> usize
    ensures within { result ≤ length bytes.now }
    ensures value { result ≡ digit_run bytes.now }
{
    let mut count = 0;
    for byte in bytes {
        if *byte < b'0' || *byte > b'9' {
            return count;
        }
        count += 1;
    }
    count
}

/// The integer that is spelled so, if it is at least the first and at most the second.
pub fn integer_between(text: &[u8], least: i32, most: i32) -> Option<i32>
    ensures reads { (z : ℤ) → IsTrue (in_number_range z) → least ≤ℤ z → z ≤ℤ most → text.now ≡ signed_decimal z → result ≡ Some z }
    ensures fault { Says result (is_integer least most text.now) (integer_of text.now) }
{
    match integer(text) {
        Some(number) if least <= number && number <= most => Some(number),
        _ => None,
    }
}

/// The object that is spelled so, `#` before its number.
pub fn object(text: &[u8]) -> Option<i32>
    ensures reads { (z : ℤ) → IsTrue (in_number_range z) → text.now ≡ text_of.object_text z → result ≡ Some z }
    ensures fault { Says result (is_object text.now) (integer_of (drop 1 text.now)) }
{
    match text {
        [b'#', number @ ..] => integer(number),
        _ => None,
    }
}

/// The numbers from 1 on that are spelled so, with dots between them, or none where the text is 0.
pub fn path(alloc: Global, text: &[u8]) -> Result<Option<Vec<usize>>, AllocError>
    ensures reads { (ns : List ℕ) → IsTrue (are_places ns) → text.now ≡ text_of.path (map decimal ns) → IfOk result (λ o. MatchOption o ⊥ (λ v. v.items ≡ ns)) }
    ensures fault { IfOk result (λ o. Says (option_map (λ v. v.items) o) (is_path text.now) (Some (path_in text.now))) }
{
    if is_zero(text) {
        return Ok(Some(Vec::new(alloc)));
    }
    dotted(alloc, text)
}

// The numbers from 1 on that are spelled so, with dots between them.
fn dotted(alloc: Global, text: &[u8]) -> Result<Option<Vec<usize>>, AllocError>
    ensures reads { (m : ℕ) (ms : List ℕ) → IsTrue (are_places (m ∷ ms)) → text.now ≡ text_of.with_dots (decimal m) (map decimal ms) → IfOk result (λ o. MatchOption o ⊥ (λ v. v.items ≡ m ∷ ms)) }
    ensures fault { IfOk result (λ o. Says (option_map (λ v. v.items) o) (are_parts (between_dots text.now)) (Some (map number_in (between_dots text.now)))) }
{
    let mut numbers = Vec::new(alloc);
    let mut rest = text;
    'parts: while let Some((part, behind)) = cut_at(rest, b'.') {
        match natural(part, 1, GREATEST_PART) {
            Some(number) => numbers.push(number as usize)?,
            None => return Ok(None),
        }
        rest = behind;
    }
    match natural(rest, 1, GREATEST_PART) {
        Some(number) => numbers.push(number as usize)?,
        None => return Ok(None),
    }
    Ok(Some(numbers))
}

// Whether a text is digits, of which the first is 0 only if it is alone.
fn is_plain(text: &[u8]) -> bool
    ensures { result ≡ is_plain_number text.now }
{
    match text {
        [b'0'] => true,
        [b'1'..=b'9', rest @ ..] => are_digits(rest),
        _ => false,
    }
}

fn are_digits(text: &[u8]) -> bool
    ensures { result ≡ list_all is_digit text.now }
{
    text.iter().all(|byte| byte.is_ascii_digit())
}

fn digits_behind_sign(text: &[u8]) -> &[u8]
    ensures { result.now ≡ behind_sign text.now }
{
    match text {
        [b'-', digits @ ..] => digits,
        _ => text,
    }
}

fn is_minus_zero(text: &[u8]) -> bool
    ensures { IsTrue result ↔ text.now ≡ 45 ∷ 48 ∷ [] }
{
    match text {
        [b'-', b'0'] => true,
        _ => false,
    }
}

fn is_zero(text: &[u8]) -> bool
    ensures { IsTrue result ↔ text.now ≡ 48 ∷ [] }
{
    match text {
        [b'0'] => true,
        _ => false,
    }
}
