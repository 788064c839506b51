//! Numbers that stand once in a list.
ghost use Rattle.std.specs.Prelude.{◌≡◌, ℤ, false, IfOk, OnOk, IsTrue};
ghost use Rattle.std.specs.List.{list_all};
ghost use Rattle.spec_world.specs.WellFormed.{lists, once};
ghost use Rattle.world_checks.specs.Marks.{mark_of, may_mark, Placed};

use crate::table_checks::marks::Marks;
use std::alloc::{AllocError, Global};

/// Whether each number of a list is marked with its place in it.
#[tactic(auto, using(crate::proofs::Placed::once_by_places))]
pub fn are_places(marks: &Marks, list: &[i32]) -> bool
    ensures tells { IsTrue result → IsTrue (once list.now) }
    ensures finds { Placed marks.now list.now → IsTrue result }
{
    for (index, number) in list.iter().enumerate() {
        if marks.get(*number) != index {
            return false;
        }
    }
    true
}

/// Whether a number stands in a list at the place of its mark.
#[tactic(auto, using(crate::proofs::Placed::listed_at))]
pub fn is_placed(marks: &Marks, list: &[i32], number: i32) -> bool
    ensures tells { IsTrue result → IsTrue (lists list.now number) }
    ensures finds { Placed marks.now list.now → IsTrue (lists list.now number) → IsTrue result }
{
    match list.get(marks.get(number)) {
        Some(found) => *found == number,
        None => false,
    }
}

/// Marks each number of a list with its place in it.
pub fn put_places(marks: &mut Marks, list: &[i32]) -> Result<(), AllocError>
    ensures places { OnOk result (IsTrue (once list.now) → IsTrue (list_all may_mark list.now) → Placed marks.new list.now) }
    ensures others { OnOk result ((n : ℤ) → lists list.now n ≡ false → mark_of marks.new n ≡ mark_of marks.old n) }
{
    for (index, number) in list.iter().enumerate() {
        marks.put(*number, index)?;
    }
    Ok(())
}

/// Whether each number of a list stands in it once. It may say no of a list with numbers that can have no marks.
pub fn is_once(alloc: Global, list: &[i32]) -> Result<bool, AllocError>
    ensures tells { IfOk result (λ b. IsTrue b → IsTrue (once list.now)) }
    ensures finds { IfOk result (λ b. IsTrue (once list.now) → IsTrue (list_all may_mark list.now) → IsTrue b) }
{
    let mut marks = Marks::new(alloc);
    put_places(&mut marks, list)?;
    Ok(are_places(&marks, list))
}
