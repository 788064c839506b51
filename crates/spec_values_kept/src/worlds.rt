//! Laws of worlds: a world of values is one again after each list of steps.
ghost use Rattle.spec_values_kept.specs.Whole.{SegmentsHold, StepsHold, ListsHold, HoldsValues, IsOfValues, StaysOfValues, NestsWithin, StaysNesting, FixtureWithin};

/// After a segment of a task, a step, and a list of steps, part by part.
pub fn steps()
    ensures segments { SegmentsHold }
    ensures steps { StepsHold }
    ensures lists { ListsHold }
{}

/// By tests of the whole world: a world of values within its bounds stays one.
pub fn whole()
    ensures parts { HoldsValues }
    ensures tests { IsOfValues }
    ensures stays { StaysOfValues }
{}

/// No literal of the text of a world within these bounds nests deeper than 65,537 lists, and none after a list of steps, which keep the bounds.
#[tactic(auto, using(crate::proofs::WorldsNest::nests_in_world, crate::proofs::WorldsNest::stays_nesting))]
pub fn nesting()
    ensures texts { NestsWithin }
    ensures stays { StaysNesting }
{}

/// The built-in world is within these bounds.
#[tactic(auto, using(crate::proofs::WholeWorlds::fixture_within))]
pub fn fixture()
    ensures { FixtureWithin }
{}
