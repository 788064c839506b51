//! Worked rows: what programs come to, as another reading of the language has it. The bodies are empty, and the clauses are the rows, true by computation.
ghost use Rattle.spec_moo_rows.specs.Tried.Handlers.{Handlers1, Handlers2, Handlers3, Handlers4, Handlers5, Handlers6, Handlers7, Handlers8, Handlers9, Handlers10, Handlers11};

/// Programs with `try`, `except` and `finally`.
#[tactic(auto, unfolding(spec_moo::specs::Opened::opened))]
pub fn handlers()
    ensures row_1 { Handlers1 }
    ensures row_2 { Handlers2 }
    ensures row_3 { Handlers3 }
    ensures row_4 { Handlers4 }
    ensures row_5 { Handlers5 }
    ensures row_6 { Handlers6 }
    ensures row_7 { Handlers7 }
    ensures row_8 { Handlers8 }
    ensures row_9 { Handlers9 }
    ensures row_10 { Handlers10 }
    ensures row_11 { Handlers11 }
{}

ghost use Rattle.spec_moo_rows.specs.Tried.Loops.{Loops1, Loops2, Loops3, Loops4, Loops5, Loops6, Loops7, Loops8, Loops9, Loops10, Loops11, Loops12, Loops13, Loops14, Loops15};

/// Programs with loops.
#[tactic(auto, unfolding(spec_moo::specs::Opened::opened))]
pub fn loops()
    ensures row_1 { Loops1 }
    ensures row_2 { Loops2 }
    ensures row_3 { Loops3 }
    ensures row_4 { Loops4 }
    ensures row_5 { Loops5 }
    ensures row_6 { Loops6 }
    ensures row_7 { Loops7 }
    ensures row_8 { Loops8 }
    ensures row_9 { Loops9 }
    ensures row_10 { Loops10 }
    ensures row_11 { Loops11 }
    ensures row_12 { Loops12 }
    ensures row_13 { Loops13 }
    ensures row_14 { Loops14 }
    ensures row_15 { Loops15 }
{}

ghost use Rattle.spec_moo_rows.specs.Tried.Calls.{Calls1, Calls2, Calls3};

/// Programs that call verbs.
#[tactic(auto, unfolding(spec_moo::specs::Opened::opened))]
pub fn calls()
    ensures row_1 { Calls1 }
    ensures row_2 { Calls2 }
    ensures row_3 { Calls3 }
{}

ghost use Rattle.spec_moo_rows.specs.Tried.Values.{Values1, Values2, Values3, Values4, Values5, Values6, Values7, Values8, Values9, Values10, Values11};

/// Programs of expressions.
#[tactic(auto, unfolding(spec_moo::specs::Opened::opened))]
pub fn values()
    ensures row_1 { Values1 }
    ensures row_2 { Values2 }
    ensures row_3 { Values3 }
    ensures row_4 { Values4 }
    ensures row_5 { Values5 }
    ensures row_6 { Values6 }
    ensures row_7 { Values7 }
    ensures row_8 { Values8 }
    ensures row_9 { Values9 }
    ensures row_10 { Values10 }
    ensures row_11 { Values11 }
{}
