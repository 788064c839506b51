//! Lists of steps.
ghost use Rattle.std.specs.Prelude.{◌≡◌, ◌↔◌, IsTrue};
ghost use Rattle.spec_world.specs.Step.{runs_on, AllInRange};
ghost use Rattle.task_step.specs.Numbers.{number_on};

use crate::step::{Step, in_range};

/// Whether the steps' numbers run on from `next` without a gap, and every field of theirs is in its range.
#[tactic(auto, using(crate::proofs::Numbers::number_on_is))]
pub fn may_play(next: u64, steps: &[Step]) -> bool
    ensures { IsTrue result ↔ (IsTrue (runs_on next steps.now) × AllInRange steps.now) }
{
    do_number_on(next, steps)
}

fn do_number_on(next: u64, steps: &[Step]) -> bool
    ensures { result ≡ number_on next steps.now }
{
    let mut number = next;
    for step in steps {
        if u64::from(step.number) != number || !in_range(step) {
            return false;
        }
        number += 1;
    }
    true
}
