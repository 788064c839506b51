//! Verbs of the wizard's, for a command of one word.
ghost use Rattle.std.specs.Prelude.{◌≡◌, [], ◌∷◌, IfOk, IsTrue};
ghost use Rattle.spec_value.specs.Datum.{is_text};
ghost use Rattle.spec_program.specs.ReadPrograms.{parsed};
ghost use Rattle.spec_fixture.specs.Fixture as meant;
ghost use Rattle.spec_fixture.specs.Texts.{program_of};

use crate::fixture::WIZARD;
use moo_compiler::program::Program;
use moo_syntax::parse::parse;
use moo_tree::statement::Tree;
use moo_value::text::Text;
use std::alloc::{AllocError, Global};
use view::verb::{ObjectPart, PrepositionPart, Verb, Verbs};

// A verb with the program of this text, which is to be one.
pub(crate) fn command(alloc: Global, names: &str, text: &str) -> Result<Verb, AllocError>
    requires { IsTrue (is_text names.now) }
    ensures { IfOk result (λ v. v ≡ meant.plain_verb names.now (program_of (parsed text.now))) }
{
    let tree = tree_of(alloc, text)?;
    plain_verb(alloc, names, tree)
}

// The tree of a text that is a program.
fn tree_of(alloc: Global, text: &str) -> Result<Tree, AllocError>
    ensures { IfOk result (λ tree. program_of (parsed text.now) ≡ tree) }
{
    match parse(alloc, text.as_bytes()) {
        Ok(tree) => Ok(tree),
        Err(_) => Err(AllocError),
    }
}

// A verb with the program of this tree.
pub(crate) fn plain_verb(alloc: Global, names: &str, tree: Tree) -> Result<Verb, AllocError>
    requires { IsTrue (is_text names.now) }
    ensures { IfOk result (λ v. v ≡ meant.plain_verb names.now tree) }
{
    Ok(Verb {
        names: Text::from_str(alloc, names)?,
        owner: WIZARD,
        readable: false,
        writable: false,
        callable: true,
        debug: true,
        direct: ObjectPart::Absent,
        preposition: PrepositionPart::Absent,
        indirect: ObjectPart::Absent,
        program: Program::compile(alloc, tree)?,
    })
}

// One verb alone.
pub(crate) fn single(alloc: Global, verb: Verb) -> Result<Verbs, AllocError>
    ensures { IfOk result (λ vs. vs ≡ verb ∷ []) }
{
    let mut verbs = Vec::with_capacity(alloc, 1)?;
    verbs.push(verb)?;
    Verbs::new(alloc, verbs)
}
