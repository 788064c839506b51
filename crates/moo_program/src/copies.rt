//! What copies trees for programs that forks start.
ghost use Rattle.std.specs.Prelude.{◌≡◌, IfOk};
ghost use Rattle.moo_tree.specs.StatementView.{program_of};

use moo_tree::statement::{Statement, Tree};
use std::alloc::{AllocError, Global};

/// Copies trees.
pub trait Copies {
    /// The program of copies of these statements.
    fn copy(&self, alloc: Global, statements: &[Statement]) -> Result<Tree, AllocError>
        ensures { IfOk result (λ tree. tree ≡ program_of statements.now) };
}
