//! Worked rows of parts of heavy values, and of ranges: the bodies are empty, and the clauses are the rows, true by computation.
ghost use Rattle.spec_rows.specs.RangeRows.{HeavyParts, InRange, Numbers};

/// Parts of heavy values.
pub fn parts()
    ensures { HeavyParts }
{}

/// The ranges of a step's fields, and numbers that run on.
pub fn ranges()
    ensures fields { InRange }
    ensures numbers { Numbers }
{}
