//! Laws of turns: what tasks hold fits their programs.
ghost use Rattle.spec_holding.specs.UnderWay.{TurnsHold};

/// After each turn of a task that stands in its programs, in the verb that is under way and in those that wait for it.
pub fn keeping()
    ensures { TurnsHold }
{}
