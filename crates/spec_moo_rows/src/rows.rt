//! Worked rows: the bodies are empty, and the clauses are the rows, true by computation.
ghost use Rattle.spec_moo_rows.specs.Rows.{EmptyProgram, Sums, Caught, Raised, WithoutDebug, NoVerb};

/// Short programs, with the bit d and without.
#[tactic(auto, unfolding(spec_moo::specs::Opened::opened))]
pub fn short()
    ensures empty { EmptyProgram }
    ensures sums { Sums }
    ensures caught { Caught }
    ensures raised { Raised }
    ensures no_debug { WithoutDebug }
    ensures no_verb { NoVerb }
{}

ghost use Rattle.spec_moo_rows.specs.Rows.{LoopRaises, LoopSkipped, ForkSkipped, BreaksOut, FinallyLeaves, SecondHandler};

/// Statements that raise, and ways out of them.
#[tactic(auto, unfolding(spec_moo::specs::Opened::opened))]
pub fn leaving()
    ensures raises { LoopRaises }
    ensures skipped { LoopSkipped }
    ensures fork { ForkSkipped }
    ensures breaks { BreaksOut }
    ensures finally_part { FinallyLeaves }
    ensures handler { SecondHandler }
{}

ghost use Rattle.spec_moo_rows.specs.Rows.{Nested, Doubled, Wrapped, OutOfTicks, Forked, Storm};

/// Limits of frames, weights, ticks and ids.
#[tactic(auto, unfolding(spec_moo::specs::Opened::opened))]
pub fn limits()
    ensures nested { Nested }
    ensures doubled { Doubled }
    ensures wrapped { Wrapped }
    ensures ticks { OutOfTicks }
    ensures forked { Forked }
    ensures storm { Storm }
{}
