//! Expressions are read back from their canonical spelling.
ghost use Rattle.spec_spelling.specs.ReadBack.{ExpressionReadBack, ArgumentsReadBack, CodesReadBack};

/// Each expression of the grammar, lists, scatters, caught expressions and assignments too, is read back from the tokens of its canonical
/// spelling, whatever may stand behind it; so are arguments and codes.
pub fn read_back()
    ensures expressions { ExpressionReadBack }
    ensures arguments { ArgumentsReadBack }
    ensures codes { CodesReadBack }
{}

ghost use Rattle.spec_spelling.specs.Canonical.{ExpressionsCut, ArgumentsCut, CodesCut};

/// The characters of the canonical spelling of each expression of the grammar are cut into just its tokens; so are those of arguments and
/// of codes.
pub fn cut()
    ensures expressions { ExpressionsCut }
    ensures arguments { ArgumentsCut }
    ensures codes { CodesCut }
{}
