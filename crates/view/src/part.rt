//! Parts of objects.
ghost use Rattle.std.specs.Prelude.{◌≡◌, IfOk};

use crate::header::Header;
use crate::lists::{Names, Objects};
use crate::slot::Slot;
use crate::verb::Verbs;
use moo_value::text::Text;
use std::alloc::AllocError;

/// Another content for one part of an object.
#[derive(Drop)]
pub enum Part {
    Header(Header),
    Children(Objects),
    Contents(Objects),
    /// The names of the properties that the object defines, in the order of definition.
    Defines(Names),
    Verbs(Verbs),
    /// The slot of a property, by the property's name; case is ignored.
    Slot(Text, Option<Slot>),
}

impl Clone for Part {
    ghost is_clone = { λ part copy. copy ≡ part };

    fn clone(&self) -> Result<Part, AllocError> {
        match self {
            Part::Header(header) => Ok(Part::Header(header.clone()?)),
            Part::Children(children) => Ok(Part::Children(children.clone()?)),
            Part::Contents(contents) => Ok(Part::Contents(contents.clone()?)),
            Part::Defines(names) => Ok(Part::Defines(names.clone()?)),
            Part::Verbs(verbs) => Ok(Part::Verbs(verbs.clone()?)),
            Part::Slot(name, slot) => Ok(Part::Slot(name.clone()?, slot.as_ref().cloned()?)),
        }
    }
}
