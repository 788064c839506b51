//! Marks of numbers.
ghost use Rattle.std.specs.Prelude.{◌≡◌, ◌<◌, ℕ, ℤ, pos, negsuc, ◌==◌, ◌&&◌, nat_lt, slice_index, if◌then◌else◌, vec_len, MatchResult, OnOk};
ghost use Rattle.world_checks.specs.Marks.{mark_of, mark_after};

use std::alloc::{AllocError, Global};
use std::marker::Model;

// Numbers further from 0 are never marked.
const LIMIT: usize = 1048576;

/// Marks of numbers from -1,048,576 to 1,048,575. A number without a mark has 0.
#[derive(Drop)]
pub struct Marks {
    above: Vec<usize>,
    below: Vec<usize>,
}

impl Model for Marks {
    ghost use Rattle.std.specs.Prelude.{ℕ, List};
    ghost use Rattle.std.specs.Coded.{coded×, coded_list, coded_ℕ};

    ghost Value = { List ℕ × List ℕ };

    ghost coded = { coded× (coded_list coded_ℕ) (coded_list coded_ℕ) };

    ghost view = { λ a. (a.above.items, a.below.items) };
}

impl Marks {
    /// No marks.
    pub fn new(alloc: Global) -> Marks
        ensures { (n : ℤ) → mark_of result n ≡ 0 }
    {
        Marks {
            above: Vec::new(alloc),
            below: Vec::new(alloc),
        }
    }

    /// The mark of a number.
    pub fn get(&self, number: i32) -> usize
        ensures { result ≡ mark_of self.now number }
    {
        match side_of(number) {
            Ok(index) => at(&self.above, index),
            Err(index) => at(&self.below, index),
        }
    }

    /// A number has another mark, if it is one of those that can have marks.
    #[tactic(auto, using(crate::proofs::Marked::put_above, crate::proofs::Marked::put_below))]
    pub fn put(&mut self, number: i32, mark: usize) -> Result<(), AllocError>
        ensures { OnOk result ((n : ℤ) → mark_of self.new n ≡ mark_after self.old number mark n) }
    {
        match side_of(number) {
            Ok(index) => set(&mut self.above, index, mark),
            Err(index) => set(&mut self.below, index, mark),
        }
    }
}

// The place of a number from 0 up, or of one below 0.
fn side_of(number: i32) -> Result<usize, usize>
    ensures { MatchResult result (λ k. number ≡ pos k) (λ k. number ≡ negsuc k) }
{
    if number < 0 {
        return Err((-1 - number) as usize);
    }
    Ok(number as usize)
}

fn at(marks: &[usize], index: usize) -> usize
    ensures { result ≡ slice_index marks.now index }
{
    match marks.get(index) {
        Some(mark) => *mark,
        None => 0,
    }
}

fn set(marks: &mut Vec<usize>, index: usize, mark: usize) -> Result<(), AllocError>
    ensures { OnOk result ((k : ℕ) → slice_index marks.new.items k ≡ (if k == index && nat_lt index 1048576 then mark else slice_index marks.old.items k)) }
{
    if index >= LIMIT {
        return Ok(());
    }
    reach(marks, index)?;
    marks[index] = mark;
    Ok(())
}

// As many marks as the index needs: each further one is 0.
fn reach(marks: &mut Vec<usize>, index: usize) -> Result<(), AllocError>
    requires { index < 1048576 }
    ensures marks { OnOk result ((k : ℕ) → slice_index marks.new.items k ≡ slice_index marks.old.items k) }
    ensures length { OnOk result (index < vec_len marks.new) }
{
    if index >= marks.len() {
        marks.resize(index + 1, 0)?;
    }
    Ok(())
}
