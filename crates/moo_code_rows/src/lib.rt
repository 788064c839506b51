//! Worked rows of the machine, on the small world of the fixture: the clauses are the rows, true by computation.
#![tactic(auto)]

ghost use Rattle.moo_code_rows.specs.Rows.{Finally, Handler, Last, Loop, Sum};

/// Programs that a machine runs to what the definition says.
#[tactic(auto, unfolding(spec_moo::specs::Opened::opened, moo_code::specs::Opened::machine_opened))]
pub fn programs()
    ensures sum { Sum }
    ensures the_loop { Loop }
    ensures last { Last }
    ensures finally { Finally }
    ensures handler { Handler }
{}
