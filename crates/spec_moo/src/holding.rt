//! Laws of held values: what a construct holds fits the part that is under way.
ghost use Rattle.spec_moo.specs.Holding.{ListsHold, CallsHold, OperandsHold};

/// Of lists and of calls of functions, from the first item on and from each item to the next; of operators, property reads, indexes and ranges
/// from each operand to the next.
pub fn lists()
    ensures lists { ListsHold }
    ensures calls { CallsHold }
    ensures operands { OperandsHold }
{}
