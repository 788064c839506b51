//! Laws of worlds: what objects, links and waiting tasks have to agree on, they agree on after all that a task does.
ghost use Rattle.spec_moo.specs.Worlds.{NativesKeep, StagesKeep};

/// After a call of a built-in function, whatever its name and its arguments are, and after a later stage of one.
pub fn natives()
    ensures calls { NativesKeep }
    ensures stages { StagesKeep }
{}

ghost use Rattle.spec_moo.specs.Worlds.{TurnsKeep, SegmentsKeep};

/// After each turn and each segment of a task under way.
pub fn tasks()
    ensures turns { TurnsKeep }
    ensures segments { SegmentsKeep }
{}

ghost use Rattle.spec_moo.specs.Worlds.{StepsKeep, ListsKeep, NextFollows, StaysWellFormed, PlayGoesOn};

/// After each step and each list of steps, a well-formed world but for the frames of waiting tasks; the next number follows
/// the step's and never falls; and a longer list goes on where a shorter one ends.
pub fn steps()
    ensures steps { StepsKeep }
    ensures lists { ListsKeep }
    ensures next { NextFollows }
    ensures whole { StaysWellFormed }
    ensures sum { PlayGoesOn }
{}
