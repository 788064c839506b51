//! Changes of one place, along the way to it.
ghost use Rattle.std.specs.Prelude.{◌≡◌, ◌+◌, ◌-◌, ◌<◌, ◌≤◌, ◌%◌, ◌^◌, ℕ, [], IfOk, OnOk};
ghost use Rattle.std.specs.Ordering.{nat_cmp};
ghost use Rattle.std.specs.FinMap.{put};
ghost use Rattle.std.specs.Arc.{arc_value};
ghost use Rattle.world_table.specs.Branch.{reach, joined, IsBranch, IsRow};
ghost use Rattle.world_table.specs.Entries.{without};

use super::blocks::BlockBuilder;
use super::rows::used;
use super::{Held, Place, index_of};
use std::alloc::AllocError;
use std::sync::Arc;

impl<R: Drop> Place<R> {
    // The places of the block that stands above so many levels: none where there is no such block.
    fn places(&self, below: u32) -> &[Place<R>]
        requires { IsBranch (below + 1) self.now }
        ensures row { IsRow below result.now }
        ensures entries { self.now.entries ≡ joined (reach below) 0 result.now }
    {
        match &self.held {
            Held::Block(stored, places) if *stored == below => places,
            _ => &[],
        }
    }

    /// The branch of so many levels with a record at a key, of which only the bits of these levels
    /// are read.
    pub fn with(
        &self,
        builder: &mut BlockBuilder,
        levels: u32,
        key: u64,
        value: Arc<R>,
    ) -> Result<Place<R>, AllocError>
        requires branch { IsBranch levels self.now }
        requires levels { levels ≤ 12 }
        requires room { builder.old.count + levels < 2 ^ 32 }
        ensures height { IfOk result (λ p. p.height ≡ levels) }
        ensures entries { IfOk result (λ p. p.entries ≡ put nat_cmp (key % reach levels) (arc_value value) self.now.entries) }
        ensures counted { OnOk result (builder.new.count ≡ builder.old.count + levels) }
    {
        if levels == 0 {
            return Ok(Place::of_record(value));
        }
        let below = levels - 1;
        let at = index_of(key, below);
        let places = self.places(below);
        if at < places.len() {
            let branch = places[at].with(builder, below, key, value)?;
            builder.changed(below, places, at, branch)
        } else {
            let branch = Place::nothing().with(builder, below, key, value)?;
            builder.changed(below, places, at, branch)
        }
    }

    /// The branch with no record at a key, of which only the bits of these levels are read.
    pub fn without(&self, builder: &mut BlockBuilder, key: u64) -> Result<Place<R>, AllocError>
        requires { builder.old.count + self.now.height < 2 ^ 32 }
        ensures height { IfOk result (λ p. p.height ≤ self.now.height) }
        ensures lower { IfOk result (λ p. p.height < self.now.height → p.entries ≡ []) }
        ensures entries { IfOk result (λ p. p.entries ≡ without (key % reach self.now.height) self.now.entries) }
        ensures counted { OnOk result (builder.new.count ≤ builder.old.count + self.now.height) }
    {
        match &self.held {
            Held::Nothing => Ok(Place::nothing()),
            Held::Record(_) => Ok(Place::nothing()),
            Held::Block(below, places) => {
                let at = index_of(key, *below);
                if at >= places.len() {
                    let same = self.share()?;
                    return Ok(same);
                }
                let branch = places[at].without(builder, key)?;
                if branch.is_nothing() && at + 1 == places.len() {
                    let count = used(&places[..at]);
                    if count == 0 {
                        return Ok(Place::nothing());
                    }
                    return builder.copied(*below, &places[..count]);
                }
                builder.changed(*below, places, at, branch)
            }
        }
    }
}
