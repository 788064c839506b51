//! Programs.
ghost use Rattle.std.specs.Prelude.{◌≡◌, [], length, string_bytes, IfOk, IfSome, IsTrue};
ghost use Rattle.spec_program.specs.ReadPrograms.{program, parsed, joined_lines};
ghost use Rattle.spec_program.specs.Spelling.{canonical_lines};
ghost use Rattle.spec_program.specs.Trees.{is_tree, program_fits};
ghost use Rattle.moo_compiler.specs.Kept.{Spells};

use crate::compile::compile;
use crate::joined::joined;
use boxcar::slot::{OnceSlot, SlotRule};
use boxcar::tag::{Names, Tag};
use moo_printer::print::print;
use moo_program::program::Program as Whole;
use moo_tree::statement::Tree;
use moo_value::text::Text;
use quick_reader::room::Room;
use spelled_text::spelled;
use std::alloc::{AllocError, Global};
use std::marker::Model;
use std::snapshot::Snapshot;
use std::sync::Arc;
use tree_grammar::is_of_grammar;

/// A program: its canonical text, shared by its owners, and with it, from when it first runs, the program with its code. A clone is a count.
///
/// Most programs of a world do not run for a long time, and a text takes a small part of the memory that a tree and its code take.
pub struct Program {
    kept: Arc<Kept>,
}

/// What is kept of a program.
#[derive(Drop)]
pub struct Kept {
    /// Its canonical lines, each with its line feed.
    pub text: String,
    /// How many they are.
    pub lines: usize,
    /// The tree that they spell.
    pub tree: Snapshot<Tree>,
    /// The program with its code, if it was asked for.
    pub whole: OnceSlot<Whole, OfText>,
}

/// A program with its code is the one that a text spells.
pub struct OfText;

impl SlotRule<Whole> for OfText {
    ghost holds = { λ t p. parsed t ≡ program p };
}

struct Bytes;

impl Names<String> for Bytes {
    ghost numbers = { λ t. string_bytes t };
}

// Written out, so that letting go of all that a program holds is proved here and not in each crate that lets a program go.
impl Drop for Program {
    fn drop(self) {
        let Program { kept: _kept } = self;
    }
}

impl Model for Program {
    ghost use Rattle.spec_program.specs.Tree.{Program as Source};
    ghost use Rattle.spec_program.specs.TreeCode.{program_code};
    ghost use Rattle.std.specs.Arc.{arc_value};

    ghost Value = { Source };

    ghost coded = { program_code };

    ghost use Rattle.moo_compiler.specs.Kept.{IsKept};

    ghost view = { λ a. (arc_value a.kept).tree.value };

    ghost invariant = { λ a. IsKept (arc_value a.kept) };
}

impl Program {
    /// The program of this tree, with its code. It is one of the grammar: any other is answered as want of memory.
    #[tactic(auto, using(crate::proofs::Texts::spells))]
    pub fn compile(alloc: Global, tree: Tree) -> Result<Program, AllocError>
        ensures { IfOk result (λ program. program ≡ tree) }
    {
        let is_tree = is_of_grammar(alloc, &tree)?;
        if !is_tree {
            return Err(AllocError);
        }
        let lines = print(alloc, &tree)?;
        let text = joined(alloc, &lines)?;
        let program = Program::new(alloc, text, lines.len(), &tree)?;
        let whole = compile(alloc, tree)?;
        program.keep(whole);
        Ok(program)
    }

    /// The program that a text spells in its canonical lines, each with its line feed. `None` says that no program was quickly found, not that there is
    /// none. The room is that of the reading, for the next one too.
    pub fn read(alloc: Global, room: &mut Room, text: &[u8]) -> Result<Option<Program>, AllocError>
        ensures spelling { IfOk result (λ found. IfSome found (λ p. text.now ≡ joined_lines (canonical_lines p))) }
        ensures tree { IfOk result (λ found. IfSome found (λ p. IsTrue (is_tree p))) }
        ensures parsed { IfOk result (λ found. IfSome found (λ p. parsed text.now ≡ program p)) }
    {
        let Ok(characters) = str::from_utf8(text) else {
            return Ok(None);
        };
        let found = spelled(alloc, room, text)?;
        let Some(found) = found else {
            return Ok(None);
        };
        let text = String::from_str(alloc, characters)?;
        let program = Program::new(alloc, text, found.lines, &found.tree)?;
        Ok(Some(program))
    }

    // The program of a text in so many lines, without its code.
    fn new(alloc: Global, text: String, lines: usize, tree: &Tree) -> Result<Program, AllocError>
        requires spells { Spells (string_bytes text) tree.now }
        requires count { lines ≡ length (canonical_lines tree.now) }
        ensures { IfOk result (λ program. program ≡ tree.now) }
    {
        let whole = OnceSlot::new(&Tag::of::<String, Bytes>(&text));
        let tree = Snapshot::of(tree);
        let kept = Arc::new(
            alloc,
            Kept {
                text,
                lines,
                tree,
                whole,
            },
        )?;
        Ok(Program { kept })
    }

    /// Its canonical lines, each with its line feed.
    pub fn text(&self) -> &str
        ensures lines { result.now ≡ joined_lines (canonical_lines self.now) }
        ensures read { parsed result.now ≡ program self.now }
    {
        self.kept.text.as_str()
    }

    /// How many lines it has.
    pub fn line_count(&self) -> usize
        ensures { result ≡ length (canonical_lines self.now) }
    {
        self.kept.lines
    }

    /// Its canonical lines.
    pub fn lines(&self, alloc: Global) -> Result<Vec<Text>, AllocError>
        ensures { IfOk result (λ lines. lines.items ≡ canonical_lines self.now) }
    {
        match self.kept.whole.get() {
            Some(whole) => print(alloc, whole.tree()),
            None => {
                let tree = self.tree_read(alloc)?;
                print(alloc, &tree)
            }
        }
    }

    /// What is known of every program: some text spells it.
    #[tactic(auto, using(crate::proofs::Texts::kept_fits))]
    pub fn know(&self)
        ensures { IsTrue (program_fits [] self.now) }
    {
        let _kept = &self.kept;
    }

    /// The same program with its code. Who asks first compiles it.
    #[inline(always)]
    pub fn whole(&self) -> Result<Whole, AllocError>
        ensures { IfOk result (λ whole. whole ≡ self.now) }
    {
        match self.kept.whole.get() {
            Some(whole) => whole.clone(),
            None => self.compiled(),
        }
    }

    /// The same program with its code, lent, if it was asked for before.
    #[inline(always)]
    pub fn at_hand(&self) -> Option<&Whole>
        ensures { IfSome result (λ whole. whole.now ≡ self.now) }
    {
        self.kept.whole.get()
    }

    // The same program with its code, which is kept, unless another thread keeps it.
    #[cold]
    #[inline(never)]
    fn compiled(&self) -> Result<Whole, AllocError>
        ensures { IfOk result (λ whole. whole ≡ self.now) }
    {
        let alloc = *self.kept.text.allocator();
        let tree = self.tree_read(alloc)?;
        let whole = compile(alloc, tree)?;
        let kept = whole.clone()?;
        self.keep(kept);
        Ok(whole)
    }

    // Its tree, read in its text.
    fn tree_read(&self, alloc: Global) -> Result<Tree, AllocError>
        ensures { IfOk result (λ tree. tree ≡ self.now) }
    {
        let mut room = Room::new(alloc);
        let found = spelled(alloc, &mut room, self.kept.text.as_bytes())?;
        match found {
            Some(found) => Ok(found.tree),
            None => Err(AllocError),
        }
    }

    // Keeps the program with its code, unless another thread does.
    fn keep(&self, whole: Whole)
        requires { whole ≡ self.now }
    {
        let _kept = self.kept.whole.set(whole);
    }
}

impl Clone for Program {
    ghost is_clone = { λ program copy. copy ≡ program };

    fn clone(&self) -> Result<Program, AllocError> {
        let kept = self.kept.clone()?;
        Ok(Program { kept })
    }
}
