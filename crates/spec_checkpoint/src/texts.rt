//! Laws of texts of lines, and what a world has to hold so that its text tells it.
ghost use Rattle.spec_checkpoint.specs.Lines.{LinesReadOnce, WholeLinesReadOnce};
ghost use Rattle.spec_checkpoint.specs.OutOfRange.{NeedsRange};
ghost use Rattle.spec_checkpoint.specs.Beginnings.{NoneBegins, NoneBeginsOfValues};
ghost use Rattle.spec_checkpoint.specs.BrokenLines.{NeedsLines};
ghost use Rattle.spec_checkpoint.specs.FixtureHolds.{FixtureHolds};
ghost use Rattle.spec_checkpoint.specs.OneWorld.{ValuesHaveLines, TextOfOneWorld};

/// So many lines, whatever stands behind them, and all the lines of a text.
#[tactic(auto, using(crate::proofs::Lines::lines_read_once, crate::proofs::Lines::whole_lines_read_once))]
pub fn lines()
    ensures lines { LinesReadOnce }
    ensures whole { WholeLinesReadOnce }
{}

/// Where a world holds numbers that no value has, it need not be the only well-formed one of its text; and where names in its programs have
/// line ends in them, its text may begin another's.
#[tactic(auto, using(crate::proofs::OutOfRange::needs_range, crate::proofs::BrokenLines::needs_lines))]
pub fn ranges()
    ensures range { NeedsRange }
    ensures lines { NeedsLines }
{}

/// No text of a world is a proper beginning of another's, where no line of either has a line end in it; so of worlds of values, that is where
/// numbers and texts are those of values and programs trees of the grammar.
#[tactic(auto, using(crate::proofs::Beginnings::none_begins, crate::proofs::OneWorld::none_begins_of_values))]
pub fn beginnings()
    ensures lines { NoneBegins }
    ensures values { NoneBeginsOfValues }
{}

/// Two well-formed worlds of values with one text are one world; and none of their lines has a line end in it.
#[tactic(auto, using(crate::proofs::Unbroken::values_have_lines, crate::proofs::OneWorld::text_of_one_world))]
pub fn worlds()
    ensures lines { ValuesHaveLines }
    ensures one { TextOfOneWorld }
{}

/// The built-in world is one of values.
#[tactic(auto, using(crate::proofs::FixtureHolds::fixture_holds))]
pub fn fixture()
    ensures { FixtureHolds }
{}
