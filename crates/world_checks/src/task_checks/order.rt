//! The order of what waits.
ghost use Rattle.std.specs.Prelude.{◌≡◌};
ghost use Rattle.moo_task.specs.Frames.{outer_of, outers_of};
ghost use Rattle.world_checks.specs.Waiting.{begins_with_verb as begins, is_verb as is_verb_of};

use moo_task::frame::Outer;

/// Whether a verb stands first and last, and no two built-in functions stand together.
#[tactic(auto, using(crate::proofs::Alternating::one_verb_more, crate::proofs::Alternating::one_native_more, crate::proofs::Alternating::all_seen))]
pub fn begins_with_verb(outers: &[Outer]) -> bool
    ensures { result ≡ begins (outers_of outers.now) }
{
    // of those so far, the innermost first
    let mut begins = false;
    let mut goes_on = true;
    for outer in outers {
        if is_verb(outer) {
            begins = goes_on;
        } else {
            goes_on = begins;
            begins = false;
        }
    }
    begins
}

fn is_verb(outer: &Outer) -> bool
    ensures { result ≡ is_verb_of (outer_of outer.now) }
{
    match outer {
        Outer::Verb(_) => true,
        Outer::Native(_) => false,
    }
}
