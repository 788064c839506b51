//! Programs are read back from their canonical spelling.
ghost use Rattle.spec_spelling.specs.ReadPrograms.{ProgramReadBack};

/// Each tree of the grammar is read back from the tokens of its canonical spelling: all its statements with their bodies, names, branches
/// and handlers, nothing else, and no fault of nesting or of loop names.
pub fn read_back()
    ensures { ProgramReadBack }
{}

ghost use Rattle.spec_spelling.specs.Canonical.{ProgramsCut, LinesReadBack, EachSpelled, SpelledAnew, OneTree};

/// The characters of the canonical lines of each program of the grammar, however deep, are cut into just its tokens.
pub fn cut()
    ensures { ProgramsCut }
{}

/// What is read of the canonical lines of each tree of the grammar is that tree. So a text spells each of them, the lines that a text is
/// spelled with anew have the tree of that text, and no two trees have the same lines.
pub fn lines_read_back()
    ensures read { LinesReadBack }
    ensures spelled { EachSpelled }
    ensures anew { SpelledAnew }
    ensures one_tree { OneTree }
{}
