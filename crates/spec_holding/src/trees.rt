//! Laws of program trees under way: where a program is one that a text spells, so is each construct of it, in the loops around it.
ghost use Rattle.spec_holding.specs.Fitting.{LinkedFits, AllInBodies, LoopsLeft};

/// Each construct that is under way fits; the loops around a statement are those whose bodies are under way; a loop that is left is one of them.
pub fn fitting()
    ensures fits { LinkedFits }
    ensures bodies { AllInBodies }
    ensures left { LoopsLeft }
{}
