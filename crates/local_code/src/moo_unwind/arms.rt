//! The handlers of `try`.
ghost use Rattle.std.specs.Prelude.{◌≡◌, map};
ghost use Rattle.moo_code.specs.Machine.{place_for};
ghost use Rattle.moo_program.specs.Meaning.{arm_place};
ghost use Rattle.local_code.specs.Taking.{first_taking as first_taking_of};

use crate::moo_unwind::codes::takes_code;
use moo_program::instruction::CatchArm;
use moo_value::value::Value;

/// The first handler whose codes, which stand beside, take a code.
pub fn first_taking(arms: &[CatchArm], held: &[Value], code: &Value) -> Option<CatchArm>
    ensures { result ≡ first_taking_of arms.now held.now code.now }
{
    for i in 0..arms.len().min(held.len()) {
        if takes_code(&held[i], code) {
            return Some(arms[i]);
        }
    }
    None
}

/// Where the part with a number begins.
pub fn part_place(arms: &[CatchArm], part: u32) -> usize
    ensures { result ≡ place_for 0 (map arm_place arms.now) part }
{
    for arm in arms {
        if arm.part.number == part {
            return arm.part.place as usize;
        }
    }
    0
}
