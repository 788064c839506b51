//! Laws of what a world lists.
ghost use Rattle.spec_world.specs.SpecViewLaws.{ConnectionIsFirst, ReaderIsFirst};

/// The task that reads on a connection is the first of those that do, and a person's connection the first of theirs.
#[tactic(auto, using(crate::proofs::Firsts::reader_is_first, crate::proofs::Firsts::connection_is_first))]
pub fn firsts()
    ensures reader { ReaderIsFirst }
    ensures connection { ConnectionIsFirst }
{}
