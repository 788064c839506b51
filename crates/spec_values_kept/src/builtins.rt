//! Laws of built-in functions: called with values, they leave a world of values and answer values.
ghost use Rattle.spec_values_kept.specs.UnderWay.{NativesHold, StagesHold};

/// Of a call, whatever its name is, and of a later stage of one.
#[tactic(auto, using(crate::proofs::BuiltinsHold::natives_hold, crate::proofs::BuiltinsHold::stages_hold))]
pub fn keeping()
    ensures calls { NativesHold }
    ensures stages { StagesHold }
{}
