//! Worked rows of places: at which calls of a program a verb can wait, and what its constructs hold then.
ghost use Rattle.spec_rows.specs.PlaceRows.{Operands, Lists, References, Catches, Targets, Scattering};

/// Within expressions.
#[tactic(auto, unfolding(crate::specs::Opened::opened))]
pub fn expressions()
    ensures operands { Operands }
    ensures lists { Lists }
    ensures references { References }
    ensures catches { Catches }
    ensures targets { Targets }
    ensures scattering { Scattering }
{}

ghost use Rattle.spec_rows.specs.PlaceRows.{Branches, Loops, Handlers, FinallyParts, LeftLoops};

/// Within statements.
#[tactic(auto, unfolding(crate::specs::Opened::opened))]
pub fn statements()
    ensures branches { Branches }
    ensures loops { Loops }
    ensures handlers { Handlers }
    ensures finally_parts { FinallyParts }
    ensures left_loops { LeftLoops }
{}
