//! From a tree to a program with its code.
ghost use Rattle.std.specs.Prelude.{◌≡◌, IfOk};
ghost use Rattle.moo_tree.specs.StatementView.{program_of};

use moo_copy::statement::copy_program;
use moo_program::copies::Copies;
use moo_program::program::Program;
use moo_tree::statement::{Statement, Tree};
use std::alloc::{AllocError, Global};

/// The program of a tree, with its code.
pub fn compile(alloc: Global, tree: Tree) -> Result<Program, AllocError>
    ensures { IfOk result (λ program. program ≡ tree) }
{
    Program::compile(alloc, &Copier, tree)
}

// Copies each node; texts and values are shared.
struct Copier;

impl Copies for Copier {
    fn copy(&self, alloc: Global, statements: &[Statement]) -> Result<Tree, AllocError>
        ensures { IfOk result (λ tree. tree ≡ program_of statements.now) }
    {
        copy_program(alloc, statements)
    }
}
