//! Laws of segments.
ghost use Rattle.spec_moo.specs.Laws.{SizeSuffices, StagesSuffice, StagesRise, OneStop, SegmentStops, StopsAsSegment, TicksFall};

/// The bounds of a segment suffice: the size of what is pending for turns that cost nothing, the stages of begun
/// built-ins between two charges, the ticks for the whole.
#[tactic(auto, using(crate::proofs::Sizes::size_suffices, crate::proofs::Stages::stages_suffice, crate::proofs::NativeStages::stages_rise, crate::proofs::Courses::ticks_fall))]
pub fn bounds()
    ensures sizes { SizeSuffices }
    ensures stages { StagesSuffice }
    ensures later { StagesRise }
    ensures ticks { TicksFall }
{}

/// Turn by turn, a task comes to the end of its segment and to no other.
pub fn courses()
    ensures one { OneStop }
    ensures segment { SegmentStops }
    ensures no_other { StopsAsSegment }
{}

ghost use Rattle.spec_moo.specs.Standing.{StartsStand, TurnsStay};

/// A verb begins in its program, and no turn leaves the programs of a task: the pieces lead from what is looked at to the
/// whole program, and each verb that waits stands at a call.
pub fn places()
    ensures starts { StartsStand }
    ensures turns { TurnsStay }
{}
