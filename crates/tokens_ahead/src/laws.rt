//! The tokens of a text, on whatever lines they stand.
ghost use Rattle.std.specs.Prelude.{◌≡◌, IsTrue};
ghost use Rattle.spec_value.specs.Datum.{Text};
ghost use Rattle.spec_program.specs.Tree.{Program};
ghost use Rattle.spec_program.specs.ReadPrograms.{parsed, program};
ghost use Rattle.spec_program.specs.Trees.{is_tree};
ghost use Rattle.spec_spelling.specs.ProgramTokens.{program_tokens};
ghost use Rattle.tokens_ahead.specs.Bare.{bare};

/// A text whose tokens are those of a tree's canonical spelling, on whatever lines they stand, has that tree.
pub fn read_back()
    ensures { (t : Text) (p : Program) → IsTrue (is_tree p) → bare t ≡ program_tokens p → parsed t ≡ program p }
{}
