//! Laws of the faults of texts.
ghost use Rattle.spec_faults.specs.TextLaws.{OneFault, FaultStays};

/// A text has at most one first fault; and it keeps it whatever comes behind the text, but for the want of a line end.
#[tactic(auto, using(crate::proofs::OneFault::one_fault, crate::proofs::Staying::fault_stays))]
pub fn faults()
    ensures one { OneFault }
    ensures stays { FaultStays }
{}

ghost use Rattle.spec_faults.specs.TextLaws.{WorldsHaveNone, WorldsHaveNoFault};

/// The text of a well-formed world of values has no fault, if its values nest no deeper than values are read, its verbs want sets of
/// prepositions that there are, and a machine can hold the text.
#[tactic(auto, using(crate::proofs::WorldsFine::worlds_have_none, crate::proofs::WorldsFine::worlds_have_no_fault))]
pub fn worlds()
    ensures lines { WorldsHaveNone }
    ensures none { WorldsHaveNoFault }
{}

ghost use Rattle.spec_faults.specs.TextLaws.{OnlyReachHasNone};

/// Only the texts of such worlds have none: where no line of the text of a well-formed world of values has a fault, its values nest no deeper than
/// values are read, and its verbs want sets of prepositions that there are.
#[tactic(auto, using(crate::proofs::InReach::only_reach_has_none))]
pub fn reach()
    ensures { OnlyReachHasNone }
{}

ghost use Rattle.spec_faults.specs.TextLaws.{BeginningsEnd};

/// A text that begins the text of such a world has no fault but that it ends.
#[tactic(auto, using(crate::proofs::Staying::beginnings_end))]
pub fn beginnings()
    ensures { BeginningsEnd }
{}

ghost use Rattle.spec_faults.specs.TextLaws.{FixtureIsTold};

/// The built-in world is one of these.
#[tactic(auto, using(crate::proofs::FixtureTold::fixture_is_told))]
pub fn fixture()
    ensures { FixtureIsTold }
{}
