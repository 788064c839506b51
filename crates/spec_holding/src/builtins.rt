//! Laws of built-in functions: the programs of a world, and what its waiting tasks hold.
ghost use Rattle.spec_holding.specs.UnderWay.{NativesHold, StagesHold};

/// After a call of a built-in function, whatever its name and its arguments are, and after a later stage of one.
pub fn keeping()
    ensures calls { NativesHold }
    ensures stages { StagesHold }
{}
