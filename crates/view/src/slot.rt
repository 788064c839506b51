//! Slots of properties.
ghost use Rattle.std.specs.Prelude.{◌≡◌, IfOk};
ghost use Rattle.spec_world.specs.Permissions.{owns_or};

use slot_content::content::Content;
use std::alloc::AllocError;
use std::marker::Model;

/// A property's slot on an object: a value, or clear.
#[derive(Drop)]
pub struct Slot {
    pub content: Content,
    pub owner: i32,
    pub readable: bool,
    pub writable: bool,
    pub changeable: bool,
}

impl Model for Slot {
    ghost use Rattle.spec_world.specs.World.{Slot as Meant};
    ghost use Rattle.spec_world.specs.WorldCode.{slot_code};

    ghost Value = { Meant };

    ghost coded = { slot_code };

    ghost view = { λ a. record {
      content = a.content;
      owner = a.owner;
      readable = a.readable;
      writable = a.writable;
      changeable = a.changeable;
    } };
}

impl Slot {
    /// Whether a programmer owns the slot, or all may read it.
    #[inline(always)]
    pub fn is_read_by(&self, programmer: i32) -> bool
        ensures { result ≡ owns_or programmer self.now.owner self.now.readable }
    {
        programmer == self.owner || self.readable
    }

    /// Whether a programmer owns the slot, or all may write it.
    #[inline(always)]
    pub fn is_written_by(&self, programmer: i32) -> bool
        ensures { result ≡ owns_or programmer self.now.owner self.now.writable }
    {
        programmer == self.owner || self.writable
    }
}

impl Clone for Slot {
    ghost is_clone = { λ slot copy. copy ≡ slot };

    fn clone(&self) -> Result<Slot, AllocError> {
        Ok(Slot {
            content: self.content.clone()?,
            owner: self.owner,
            readable: self.readable,
            writable: self.writable,
            changeable: self.changeable,
        })
    }
}
