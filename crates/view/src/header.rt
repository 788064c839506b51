//! Headers of objects.
ghost use Rattle.std.specs.Prelude.{◌≡◌, IfOk};

use moo_value::text::Text;
use std::alloc::AllocError;
use std::marker::Model;

/// What an object is besides its lists, its properties and its verbs.
#[derive(Drop)]
pub struct Header {
    pub name: Text,
    pub owner: i32,
    pub parent: i32,
    pub location: i32,
    pub is_player: bool,
    pub is_programmer: bool,
    pub is_wizard: bool,
    pub readable: bool,
    pub writable: bool,
    pub fertile: bool,
}

impl Model for Header {
    ghost use Rattle.spec_world.specs.World.{Header as Meant};
    ghost use Rattle.spec_world.specs.WorldCode.{header_code};

    ghost Value = { Meant };

    ghost coded = { header_code };

    ghost view = { λ a. record {
      name = a.name;
      owner = a.owner;
      parent = a.parent;
      location = a.location;
      is_player = a.is_player;
      is_programmer = a.is_programmer;
      is_wizard = a.is_wizard;
      readable = a.readable;
      writable = a.writable;
      fertile = a.fertile;
    } };
}

impl Clone for Header {
    ghost is_clone = { λ header copy. copy ≡ header };

    fn clone(&self) -> Result<Header, AllocError> {
        Ok(Header {
            name: self.name.clone()?,
            owner: self.owner,
            parent: self.parent,
            location: self.location,
            is_player: self.is_player,
            is_programmer: self.is_programmer,
            is_wizard: self.is_wizard,
            readable: self.readable,
            writable: self.writable,
            fertile: self.fertile,
        })
    }
}
