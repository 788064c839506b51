//! Worlds that are read again.
ghost use Rattle.spec_fixture.specs.Fixture.{fixture as built_in};
ghost use Rattle.checkpoint.specs.Readable.{IsReadable};

/// The built-in world is readable.
#[tactic(auto, using(crate::proofs::FixtureReads::fixture_reads))]
pub fn fixture()
    ensures { IsReadable built_in }
{}
