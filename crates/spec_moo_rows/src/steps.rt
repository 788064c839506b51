//! Worked rows of steps: what scripts on the fixture print.
ghost use Rattle.spec_moo_rows.specs.StepRows.{TwoCounts, Sum, Looks, Grows, Evaluated};

/// Commands.
#[tactic(auto, unfolding(spec_moo::specs::Opened::opened))]
pub fn commands()
    ensures counts { TwoCounts }
    ensures sum { Sum }
    ensures looks { Looks }
    ensures grows { Grows }
    ensures evaluated { Evaluated }
{}

ghost use Rattle.spec_moo_rows.specs.StepRows.{Plots, Dice, Holds, Asks, Drops, Breeds};

/// Tasks.
#[tactic(auto, unfolding(spec_moo::specs::Opened::opened))]
pub fn tasks()
    ensures plots { Plots }
    ensures dice { Dice }
    ensures holds { Holds }
    ensures asks { Asks }
    ensures drops { Drops }
    ensures breeds { Breeds }
{}

ghost use Rattle.spec_moo_rows.specs.StepRows.{Closed, Told, LogsIn, LogsInAgain, Moves, MovesOfAnn, EvaluatesOne, Catches, Programs, ProgramsWrong};

/// Links, objects and programs.
#[tactic(auto, unfolding(spec_moo::specs::Opened::opened))]
pub fn worlds()
    ensures closed { Closed }
    ensures told { Told }
    ensures logs { LogsIn }
    ensures again { LogsInAgain }
    ensures moves { Moves }
    ensures anns { MovesOfAnn }
    ensures one { EvaluatesOne }
    ensures catches { Catches }
    ensures programs { Programs }
    ensures wrong { ProgramsWrong }
{}

ghost use Rattle.spec_moo_rows.specs.StepRows.{Storm, Recursion, Bomb, Twice};

/// What stops tasks that would not end.
#[tactic(auto, unfolding(spec_moo::specs::Opened::opened))]
pub fn bounds()
    ensures storm { Storm }
    ensures recursion { Recursion }
    ensures bomb { Bomb }
    ensures twice { Twice }
{}

ghost use Rattle.spec_moo_rows.specs.StepRows.{EmptyText, HeldText, CountText};

/// The text of a world.
#[tactic(auto, unfolding(spec_moo::specs::Opened::opened))]
pub fn texts()
    ensures empty { EmptyText }
    ensures held { HeldText }
    ensures count { CountText }
{}
