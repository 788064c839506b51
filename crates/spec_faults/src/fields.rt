//! Laws of lines, of fields and of programs: what they are told as, and that nothing else is told so.
ghost use Rattle.spec_faults.specs.FieldLaws.{NumbersSpelled, NumbersTold, IntegersSpelled, IntegersTold};

/// A number is told of its spelling alone.
#[tactic(auto, using(crate::proofs::Spelling::numbers_spelled, crate::proofs::Spelling::numbers_told, crate::proofs::Spelling::integers_spelled, crate::proofs::Spelling::integers_told))]
pub fn numbers()
    ensures numbers { NumbersSpelled }
    ensures each_number { NumbersTold }
    ensures integers { IntegersSpelled }
    ensures each_integer { IntegersTold }
{}

ghost use Rattle.spec_faults.specs.FieldLaws.{ProgramsSpelled, ProgramsTold};

/// A program is told of its canonical lines alone.
#[tactic(auto, using(crate::proofs::Spelling::programs_spelled, crate::proofs::Spelling::programs_told))]
pub fn programs()
    ensures programs { ProgramsSpelled }
    ensures each { ProgramsTold }
{}

ghost use Rattle.spec_faults.specs.FieldLaws.{ValuesSpelled, ValuesTold};

/// A value is told of its literal alone.
#[tactic(auto, using(crate::proofs::Spelling::values_spelled, crate::proofs::LiteralsBack::values_told))]
pub fn values()
    ensures values { ValuesSpelled }
    ensures each { ValuesTold }
{}

ghost use Rattle.spec_faults.specs.FieldLaws.{LinesSpelled, LinesTold, FieldsSpelled, FieldsTold};

/// A text is its lines with what stands behind them, and a line its fields; lines are cut where they end, and fields of unmarked characters
/// and literals where they end.
#[tactic(auto, using(crate::proofs::LinesBack::lines_spelled, crate::proofs::LinesBack::lines_told, crate::proofs::FieldsBack::fields_spelled, crate::proofs::FieldsBack::fields_told))]
pub fn cuts()
    ensures lines { LinesSpelled }
    ensures each_line { LinesTold }
    ensures fields { FieldsSpelled }
    ensures each_field { FieldsTold }
{}
