//! Laws of values.
ghost use Rattle.spec_value.specs.Laws.{SameDecides};

/// The test of equality with case counted decides equality.
#[tactic(auto, using(crate::proofs::Same::same_decides))]
pub fn equality()
    ensures { SameDecides }
{}
