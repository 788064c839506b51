//! Links.
ghost use Rattle.std.specs.Prelude.{◌≡◌, IfOk};

use crate::lists::Lines;
use moo_value::text::Text;
use std::alloc::AllocError;
use std::marker::Model;

/// The new program of a verb, which somebody types line by line.
#[derive(Drop)]
pub struct Programming {
    pub object: i32,
    pub verb: Text,
    /// The lines so far, none once they are too long.
    pub lines: Option<Lines>,
}

impl Model for Programming {
    ghost use Rattle.spec_world.specs.World.{Programming as Meant};
    ghost use Rattle.spec_world.specs.WorldCode.{programming_code};

    ghost Value = { Meant };

    ghost coded = { programming_code };

    ghost view = { λ a. record { object = a.object; verb = a.verb; lines = a.lines } };
}

impl Clone for Programming {
    ghost is_clone = { λ programming copy. copy ≡ programming };

    fn clone(&self) -> Result<Programming, AllocError> {
        Ok(Programming {
            object: self.object,
            verb: self.verb.clone()?,
            lines: self.lines.as_ref().cloned()?,
        })
    }
}

/// A link that is open, with the person on it: a player, or the negative number of somebody who has not logged in.
#[derive(Drop)]
pub struct Link {
    pub person: i32,
    /// The program that the person types, if any.
    pub programming: Option<Programming>,
}

impl Model for Link {
    ghost use Rattle.spec_world.specs.World.{Link as Meant};
    ghost use Rattle.spec_world.specs.WorldCode.{link_code};

    ghost Value = { Meant };

    ghost coded = { link_code };

    ghost view = { λ a. record { person = a.person; programming = a.programming } };
}

impl Link {
    ghost use Rattle.std.specs.Prelude.{None};

    /// The link of a person who types no program.
    pub fn new(person: i32) -> Link
        ensures { result ≡ record { person = person; programming = None } }
    {
        Link {
            person,
            programming: None,
        }
    }
}

impl Clone for Link {
    ghost is_clone = { λ link copy. copy ≡ link };

    fn clone(&self) -> Result<Link, AllocError> {
        Ok(Link {
            person: self.person,
            programming: self.programming.as_ref().cloned()?,
        })
    }
}
