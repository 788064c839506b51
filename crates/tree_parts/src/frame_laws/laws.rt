//! Laws of verbs that wait.
ghost use Rattle.tree_parts.specs.Arriving.{CallsStand};
ghost use Rattle.tree_parts.specs.Telling.{CallsTold, ForksTold};

/// Where a path leads to a call of a verb's program, to the verb's place, past constructs that hold as many values as it has
/// operands, the verb waits there.
pub fn standing()
    ensures { CallsStand }
{}

/// The text of what waits at calls, and of what was forked, is told by the place and the operands of each verb.
pub fn telling()
    ensures calls { CallsTold }
    ensures forks { ForksTold }
{}
