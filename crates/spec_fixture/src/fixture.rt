//! The small world of the worked rows.
ghost use Rattle.spec_fixture.specs.Fixture.{fixture};
ghost use Rattle.spec_world.specs.WellFormed.{IsWellFormed};

/// The fixture is a well-formed world.
#[tactic(auto, using(crate::proofs::FixtureFits::fixture_fits))]
pub fn fits()
    ensures { IsWellFormed fixture }
{}
