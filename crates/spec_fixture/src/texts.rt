//! The texts of the fixture's verbs read as their programs: the bodies are empty, and the clauses are true by computation.
ghost use Rattle.spec_fixture.specs.Texts.{LoginReads, BoxLookReads, PutReads};

/// The system's verb, and those of the box.
#[tactic(auto, unfolding(crate::specs::Opened::opened))]
pub fn edges()
    ensures login { LoginReads }
    ensures box_look { BoxLookReads }
    ensures put { PutReads }
{}

ghost use Rattle.spec_fixture.specs.Texts.{AcceptReads, CountReads, SumReads, LookReads, TellReads, EvalReads};

/// The room's verbs that answer.
#[tactic(auto, unfolding(crate::specs::Opened::opened))]
pub fn answering()
    ensures accept { AcceptReads }
    ensures count { CountReads }
    ensures sum { SumReads }
    ensures look { LookReads }
    ensures tell { TellReads }
    ensures eval { EvalReads }
{}

ghost use Rattle.spec_fixture.specs.Texts.{GrowReads, CallReads};

/// The room's verbs that call and add verbs.
#[tactic(auto, unfolding(crate::specs::Opened::opened))]
pub fn calling()
    ensures grow { GrowReads }
    ensures call { CallReads }
{}

ghost use Rattle.spec_fixture.specs.Texts.{PlotReads, DiceReads, SpinReads, HoldReads, WakeReads, StormReads};

/// The room's verbs that fork, wait or do not end.
#[tactic(auto, unfolding(crate::specs::Opened::opened))]
pub fn waiting()
    ensures plot { PlotReads }
    ensures dice { DiceReads }
    ensures spin { SpinReads }
    ensures hold { HoldReads }
    ensures wake { WakeReads }
    ensures storm { StormReads }
{}
