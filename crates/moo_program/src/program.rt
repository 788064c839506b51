//! Programs.
ghost use Rattle.std.specs.Prelude.{◌≡◌, length, map, true, IfOk};
ghost use Rattle.std.specs.List.{list_all};
ghost use Rattle.moo_code.specs.Layout.{code_of, handlers_of};
ghost use Rattle.moo_code.specs.Names.{names_of};
ghost use Rattle.moo_program.specs.Gathering.{forks_in};
ghost use Rattle.moo_program.specs.Meaning.{meant, handler_meant, body_at};
ghost use Rattle.moo_program.specs.Names.{known};
ghost use Rattle.moo_program.specs.Outline.{outline_of};
ghost use Rattle.moo_program.specs.Within.{slots_in, handler_slots_in};

use crate::compiled::Compiled;
use crate::copies::Copies;
use crate::instruction::{Handler, Instruction};
use crate::moo_bytecode::around::plus;
use crate::names::count_slots;
use crate::outline::Step;
use moo_tree::statement::Tree;
use moo_value::text::Text;
use std::alloc::{AllocError, Global};
use std::marker::Model;
use std::sync::Arc;

/// A program: its source tree with its code, shared by their owners, and with them the programs that it forks. A clone is a count.
pub struct Program {
    compiled: Arc<Compiled>,
    // which of them it is
    place: usize,
}

// Written out, so that letting go of all that a program holds is proved here and not in each crate that lets a program go.
impl Drop for Program {
    fn drop(self) {
        let Program {
            compiled: _compiled,
            place: _,
        } = self;
    }
}

impl Model for Program {
    ghost use Rattle.spec_program.specs.Tree.{Program as Source};
    ghost use Rattle.spec_program.specs.TreeCode.{program_code};
    ghost use Rattle.std.specs.Arc.{arc_value};

    ghost Value = { Source };

    ghost coded = { program_code };

    ghost use Rattle.moo_program.specs.Compiled.{IsProgram, tree_at};

    ghost view = { λ a. tree_at (arc_value a.compiled) a.place };

    ghost invariant = { λ a. IsProgram (arc_value a.compiled) a.place };
}

impl Program {
    /// The program of a tree. What its forks start are programs of copies.
    pub fn compile<C: Copies>(alloc: Global, copier: &C, tree: Tree) -> Result<Program, AllocError>
        ensures { IfOk result (λ program. program ≡ tree) }
    {
        let compiled = Compiled::new(alloc, copier, tree)?;
        let compiled = Arc::new(alloc, compiled)?;
        Ok(Program { compiled, place: 0 })
    }

    /// Its source tree.
    pub fn tree(&self) -> &Tree
        ensures { result.now ≡ self.now }
    {
        &self.compiled.trees[self.place]
    }

    /// The names of its variables behind those of every verb's start, in the order of their slots.
    #[tactic(auto, using(crate::proofs::Coding::names_at, crate::proofs::Coding::place_coded))]
    pub fn names(&self) -> &[Text]
        ensures { known result.now ≡ names_of self.now }
    {
        let coded = &self.compiled.codes[self.place];
        coded.code.names.as_slice()
    }

    /// How many variables it has, with those of every verb's start, which are the first ones.
    pub fn slot_count(&self) -> usize
        ensures { result ≡ length (names_of self.now) }
    {
        count_slots(self.names())
    }

    /// Its instructions, by their places.
    #[tactic(auto, using(crate::proofs::Coding::code_at, crate::proofs::Coding::slots_at, crate::proofs::Coding::place_coded))]
    pub fn code(&self) -> &[Instruction]
        ensures code { map (meant (names_of self.now) (forks_in (code_of self.now))) result.now ≡ code_of self.now }
        ensures slots { list_all (slots_in (length (names_of self.now))) result.now ≡ true }
    {
        let coded = &self.compiled.codes[self.place];
        coded.code.assembled.code.as_slice()
    }

    /// What catches leavings in them, the inner ones first.
    #[tactic(auto, using(crate::proofs::Coding::handlers_at, crate::proofs::Coding::handled_at, crate::proofs::Coding::place_coded))]
    pub fn handlers(&self) -> &[Handler]
        ensures handlers { map (handler_meant (names_of self.now)) result.now ≡ handlers_of self.now }
        ensures slots { list_all (handler_slots_in (length (names_of self.now))) result.now ≡ true }
    {
        let coded = &self.compiled.codes[self.place];
        coded.code.assembled.handlers.as_slice()
    }

    /// Which of its instructions belong to which construct.
    #[tactic(auto, using(crate::proofs::Coding::outline_at, crate::proofs::Coding::place_coded))]
    pub fn outline(&self) -> &[Step]
        ensures { result.now ≡ outline_of self.now }
    {
        let coded = &self.compiled.codes[self.place];
        coded.code.outline.as_slice()
    }

    /// The program that a fork starts, by its number among the forks of this one.
    #[tactic(auto, using(crate::proofs::Coding::body_view, crate::proofs::Coding::body_whole, crate::proofs::Coding::place_coded))]
    pub fn body(&self, number: usize) -> Result<Program, AllocError>
        ensures { IfOk result (λ program. program ≡ body_at (forks_in (code_of self.now)) number) }
    {
        let coded = &self.compiled.codes[self.place];
        if coded.forks <= number {
            return Err(AllocError);
        }
        let place = plus(coded.bodies, number)?;
        let compiled = self.compiled.clone()?;
        Ok(Program { compiled, place })
    }
}

impl Clone for Program {
    ghost is_clone = { λ program copy. copy ≡ program };

    fn clone(&self) -> Result<Program, AllocError> {
        let compiled = self.compiled.clone()?;
        let place = self.place;
        Ok(Program { compiled, place })
    }
}
