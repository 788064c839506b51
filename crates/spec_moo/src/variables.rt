//! Laws of variables: in each verb that is under way or waits they stand in the order of their names, one of each.
ghost use Rattle.spec_moo.specs.Variables.{StartsInOrder, StartsNamed, NamesAgree, ForksInOrder, WaitsInOrder};

/// When a verb begins, then under names that programs can write; when a `fork` statement queues its body, and when a task that waited goes on.
pub fn beginnings()
    ensures starts { StartsInOrder }
    ensures named { StartsNamed }
    ensures names { NamesAgree }
    ensures forks { ForksInOrder }
    ensures resumes { WaitsInOrder }
{}

ghost use Rattle.spec_moo.specs.Variables.{TurnsKeepOrder, SegmentsKeepOrder};

/// After each turn and each segment, of the verbs that are then under way or wait.
pub fn turns()
    ensures turns { TurnsKeepOrder }
    ensures segments { SegmentsKeepOrder }
{}
