//! The programs of a tree and of its forks.
ghost use Rattle.std.specs.Prelude.{◌≡◌, ◌<◌, length, get_or, IfOk, OnOk};
ghost use Rattle.spec_program.specs.Tree.{the_end};
ghost use Rattle.moo_program.specs.Compiled.{AreCoded, IsWhole};

use crate::compile::{Code, compile};
use crate::copies::Copies;
use moo_tree::statement::Tree;
use std::alloc::{AllocError, Global};

/// A tree, the bodies of its forks, and those of the forks in them, with their code.
#[derive(Drop)]
pub struct Compiled {
    pub trees: Vec<Tree>,
    /// The code of the first ones.
    pub codes: Vec<Coded>,
}

/// The code of a tree, and where among the trees the bodies of its forks begin, and how many they are.
#[derive(Drop)]
pub struct Coded {
    pub code: Code,
    pub bodies: usize,
    pub forks: usize,
}

impl Compiled {
    /// A tree and all that it forks.
    #[tactic(auto, using(crate::proofs::Coding::is_whole, crate::proofs::Coding::none_coded))]
    pub fn new<C: Copies>(alloc: Global, copier: &C, tree: Tree) -> Result<Compiled, AllocError>
        ensures whole { IfOk result (λ c. IsWhole c) }
        ensures first { IfOk result (λ c. get_or c.trees.items 0 the_end ≡ tree) }
    {
        let mut trees = Vec::with_capacity(alloc, 1)?;
        trees.push(tree)?;
        let codes = Vec::with_capacity(alloc, 1)?;
        let mut compiled = Compiled { trees, codes };
        'next: for _ in 0..usize::MAX {
            if compiled.trees.len() <= compiled.codes.len() {
                return Ok(compiled);
            }
            compiled.code_next(alloc, copier)?;
        }
        Err(AllocError)
    }

    // The code of the first tree that has none. The bodies of its forks come behind all.
    #[tactic(auto, using(crate::proofs::Coding::more_coded, crate::proofs::Coding::first_stays, crate::proofs::Coding::some_stay))]
    fn code_next<C: Copies>(&mut self, alloc: Global, copier: &C) -> Result<(), AllocError>
        requires left { length self.old.codes.items < length self.old.trees.items }
        requires coded { AreCoded self.old }
        ensures coded { OnOk result (AreCoded self.new) }
        ensures first { OnOk result (get_or self.new.trees.items 0 the_end ≡ get_or self.old.trees.items 0 the_end) }
        ensures some { OnOk result (0 < length self.new.trees.items) }
    {
        let mut parts = compile(alloc, copier, &self.trees[self.codes.len()])?;
        let bodies = self.trees.len();
        let forks = parts.bodies.len();
        self.trees.append(&mut parts.bodies)?;
        self.codes.push(Coded {
            code: parts.code,
            bodies,
            forks,
        })?;
        Ok(())
    }
}
