//! How blocks are built.
ghost use Rattle.std.specs.Prelude.{◌≡◌, ◌+◌, ◌<◌, IfOk, if◌then◌else◌, is_ok};
ghost use Rattle.world_table.specs.Branch.{reach, joined, with_branch, IsBranch, IsRow};

use super::rows::{copied, copied_with};
use super::{Held, Place};
use std::alloc::{AllocError, Global};
use std::sync::Arc;

/// Builds blocks, and counts those that it built.
#[derive(Drop)]
pub struct BlockBuilder {
    alloc: Global,
    pub count: usize,
}

impl BlockBuilder {
    /// A builder that has built nothing.
    pub fn new(alloc: Global) -> Self
        ensures { result.count ≡ 0 }
    {
        BlockBuilder { alloc, count: 0 }
    }

    /// A block of these places, above so many levels.
    #[inline(always)]
    fn block<R: Drop>(&mut self, below: u32, places: Vec<Place<R>>) -> Result<Place<R>, AllocError>
        requires levels { below < 12 }
        requires places { IsRow below places.items }
        requires room { self.old.count < usize.MAX }
        ensures height { IfOk result (λ p. p.height ≡ below + 1) }
        ensures entries { IfOk result (λ p. p.entries ≡ joined (reach below) 0 places.items) }
        ensures counted { self.new.count ≡ self.old.count + (if is_ok result then 1 else 0) }
    {
        let places = Arc::new(self.alloc, places)?;
        self.count += 1;
        Ok(Place {
            held: Held::Block(below, places),
        })
    }

    /// A block of these places, save that one of them has another branch.
    pub fn changed<R: Drop>(
        &mut self,
        below: u32,
        places: &[Place<R>],
        at: usize,
        branch: Place<R>,
    ) -> Result<Place<R>, AllocError>
        requires levels { below < 12 }
        requires places { IsRow below places.now }
        requires at { at < 32 }
        requires branch { IsBranch below branch }
        requires room { self.old.count < usize.MAX }
        ensures height { IfOk result (λ p. p.height ≡ below + 1) }
        ensures entries { IfOk result (λ p. p.entries ≡ joined (reach below) 0 (with_branch at branch places.now)) }
        ensures counted { self.new.count ≡ self.old.count + (if is_ok result then 1 else 0) }
    {
        let copies = copied_with(self.alloc, places, at, branch)?;
        self.block(below, copies)
    }

    /// A block of these places.
    pub fn copied<R: Drop>(
        &mut self,
        below: u32,
        places: &[Place<R>],
    ) -> Result<Place<R>, AllocError>
        requires levels { below < 12 }
        requires places { IsRow below places.now }
        requires room { self.old.count < usize.MAX }
        ensures height { IfOk result (λ p. p.height ≡ below + 1) }
        ensures entries { IfOk result (λ p. p.entries ≡ joined (reach below) 0 places.now) }
        ensures counted { self.new.count ≡ self.old.count + (if is_ok result then 1 else 0) }
    {
        let copies = copied(self.alloc, places)?;
        self.block(below, copies)
    }
}
