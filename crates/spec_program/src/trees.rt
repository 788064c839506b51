//! Laws of source trees: which of them are programs.
ghost use Rattle.spec_program.specs.TreeRows.{TreesOfTexts, NoTrees, Heights};

/// Texts whose trees are programs, and trees that are none: a name in capitals or a keyword, a number that no program writes, `$` outside
/// brackets, a scatter with two rests, a `break` with no loop around or out of a fork's body, a path of 101 nodes.
pub fn worked()
    ensures texts { TreesOfTexts }
    ensures others { NoTrees }
    ensures heights { Heights }
{}

ghost use Rattle.spec_program.specs.TreeLaws.{ParsedFits, ParsedIsTree};

/// The tree that a text has: its names are identifiers in lower case and no keywords, its literals such as texts write, `$` stands in brackets,
/// items and targets as in the grammar, and each `break` and `continue` in a loop that it means. And no path has more than 100 nodes.
pub fn read()
    ensures parsed { ParsedFits }
    ensures tree { ParsedIsTree }
{}
