//! Laws of worlds: a well-formed world whose programs texts spell is one again after each list of steps.
ghost use Rattle.spec_holding.specs.Whole.{SegmentsHold, StepsHold, ListsHold, StaysWholeOnce, StaysWhole};

/// After a segment of a task, a step, and a list of steps; so what the frames of waiting tasks hold needs no premise.
pub fn steps()
    ensures segments { SegmentsHold }
    ensures steps { StepsHold }
    ensures lists { ListsHold }
    ensures once { StaysWholeOnce }
    ensures whole { StaysWhole }
{}

ghost use Rattle.spec_holding.specs.Unspelled.{NeedsSpelling};

/// Where no text spells a program, a well-formed world need not stay one: a program could name a variable as none is named.
pub fn spelling()
    ensures { NeedsSpelling }
{}
