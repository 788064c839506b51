//! The parts of a well-formed world.
ghost use Rattle.spec_world.specs.Agreeing.{WellFormedAgrees, AgreesIsWellFormed};

/// A world is well formed where its objects, links and tasks agree, and the frames of its waiting tasks hold what belongs there.
pub fn parts()
    ensures agrees { WellFormedAgrees }
    ensures whole { AgreesIsWellFormed }
{}

ghost use Rattle.spec_world.specs.Locally.{RanksTell, ParentsTell};

/// There is no cycle where ranks fall, and names and slots agree along lines where they agree with each parent.
pub fn locally()
    ensures ranks { RanksTell }
    ensures parents { ParentsTell }
{}
