//! Numbers in rising order.
ghost use Rattle.std.specs.Prelude.{IsTrue};
ghost use Rattle.std.specs.Ordering.{int_cmp};
ghost use Rattle.std.specs.List.Sorted.{IsStrictlySortedBy};

/// Whether each number is less than the next.
pub fn rise(numbers: &[i32]) -> bool
    ensures tells { IsTrue result → IsStrictlySortedBy int_cmp numbers.now }
    ensures finds { IsStrictlySortedBy int_cmp numbers.now → IsTrue result }
{
    for index in 1..numbers.len() {
        if numbers[index - 1] >= numbers[index] {
            return false;
        }
    }
    true
}
