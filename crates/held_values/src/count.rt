//! Counts among integers.
ghost use Rattle.std.specs.Prelude.{◌≡◌, ℕ, pos, Some, IfSome};

/// An integer as a count, if it is none below 0.
pub fn as_count(number: i32) -> Option<usize>
    ensures tells { IfSome result (λ count. number ≡ pos count) }
    ensures finds { (count : ℕ) → number ≡ pos count → result ≡ Some count }
{
    match usize::try_from(number) {
        Ok(count) => Some(count),
        Err(_) => None,
    }
}
