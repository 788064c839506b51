//! Laws of turns: tasks over values lead to values.
ghost use Rattle.spec_values_kept.specs.UnderWay.{TurnsHold, FewContained};

/// After each turn of a task that stands in its programs, in the verb that is under way and in those that wait for it.
#[tactic(auto, using(crate::proofs::TurnsHold::turns_hold))]
pub fn keeping()
    ensures { TurnsHold }
{}

/// Where objects agree, none contains as many as there are numbers.
#[tactic(auto, using(crate::proofs::Contents::few_contained))]
pub fn containing()
    ensures { FewContained }
{}
