//! Worked rows: texts and their first faults.
ghost use Rattle.spec_faults.specs.Rows.{EmptyWorld, Headers, Ends, EndsInCode};

/// The world with nothing in it; headers; and texts that end too early.
#[tactic(auto, unfolding(crate::specs::Opened::opened))]
pub fn ends()
    ensures empty { EmptyWorld }
    ensures headers { Headers }
    ensures ends { Ends }
    ensures in_code { EndsInCode }
{}

ghost use Rattle.spec_faults.specs.Rows.{OtherWords, OtherCounts, OtherLines};

/// Lines with another word or another number of fields than can stand there.
#[tactic(auto, unfolding(crate::specs::Opened::opened))]
pub fn lines()
    ensures words { OtherWords }
    ensures counts { OtherCounts }
    ensures lines { OtherLines }
{}

ghost use Rattle.spec_faults.specs.Rows.{Numbers, ObjectNumbers, Letters, TaskNumbers};

/// Fields that are no literals.
#[tactic(auto, unfolding(crate::specs::Opened::opened))]
pub fn numbers()
    ensures numbers { Numbers }
    ensures objects { ObjectNumbers }
    ensures letters { Letters }
    ensures tasks { TaskNumbers }
{}

ghost use Rattle.spec_faults.specs.Rows.{Misspelt, OtherKinds};

/// Literals.
#[tactic(auto, unfolding(crate::specs::Opened::opened))]
pub fn values()
    ensures misspelt { Misspelt }
    ensures kinds { OtherKinds }
{}

ghost use Rattle.spec_faults.specs.Rows.{LeastOfLine, LeastOfEntry, EarliestLine};

/// Several faults: the earliest line counts, and in it the least.
#[tactic(auto, unfolding(crate::specs::Opened::opened))]
pub fn several()
    ensures line { LeastOfLine }
    ensures entry { LeastOfEntry }
    ensures earliest { EarliestLine }
{}

ghost use Rattle.spec_faults.specs.Rows.{Programs, Places, Held, Entries, Forks};

/// Programs, and what does not go with the lines before it in a task.
#[tactic(auto, unfolding(crate::specs::Opened::opened))]
pub fn tasks()
    ensures programs { Programs }
    ensures places { Places }
    ensures held { Held }
    ensures entries { Entries }
    ensures forks { Forks }
{}

ghost use Rattle.spec_faults.specs.Rows.{UnfaultedWorlds, UnfaultedOthers};

/// Texts whose lines have no fault: those of worlds, and those that no well-formed world has.
#[tactic(auto, unfolding(crate::specs::Opened::opened))]
pub fn unfaulted()
    ensures worlds { UnfaultedWorlds }
    ensures others { UnfaultedOthers }
{}

ghost use Rattle.spec_faults.specs.WorldRows.{OutOfOrder};

/// A text whose lines have no fault and that no well-formed world has.
#[tactic(auto, using(crate::proofs::OutOfOrder::links_out_of_order))]
pub fn worlds()
    ensures { OutOfOrder }
{}
