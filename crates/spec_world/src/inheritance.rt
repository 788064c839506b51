//! Laws of ancestors and of the values of properties.
ghost use Rattle.spec_world.specs.Laws.{AncestorsAreALine, OwnValue};

/// In a well-formed world ancestors go up along parent, and a slot that is not clear gives its own value.
#[tactic(auto, using(crate::proofs::Lines::ancestors_are_a_line, crate::proofs::Lines::own_value))]
pub fn lines()
    ensures ancestors { AncestorsAreALine }
    ensures own { OwnValue }
{}
