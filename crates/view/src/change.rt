//! Changes.
ghost use Rattle.std.specs.Prelude.{◌≡◌, IfOk};

use crate::link::Link;
use crate::object::Object;
use crate::part::Part;
use moo_task::task::Task;
use moo_value::text::Text;
use moo_value::value::Value;
use std::alloc::AllocError;

/// What a step does to a world.
#[derive(Drop)]
pub enum Change {
    /// An object has another part. Where there is no such object nothing changes.
    Part(i32, Part),
    /// A property's slot on an object has another value. Where there is no such slot nothing changes.
    Value(i32, Text, Value),
    /// An object is made, or is another one, or goes. Only numbers from 0 to 999,999 are given.
    Object(i32, Option<Object>),
    /// A task comes to wait, or is another one, or waits no more. It may have any id.
    Task(i32, Option<Task>),
    /// A link is opened, or is another one, or goes. Only numbers from 0 to 999,999 are given.
    Link(i32, Option<Link>),
    /// The greatest number that an object has had.
    Greatest(i32),
    /// Whether the server is about to end.
    Ending(bool),
    /// The next step has at least this number.
    Next(u64),
}

impl Clone for Change {
    ghost is_clone = { λ change copy. copy ≡ change };

    fn clone(&self) -> Result<Change, AllocError> {
        match self {
            Change::Part(object, part) => Ok(Change::Part(*object, part.clone()?)),
            Change::Value(object, name, value) => {
                Ok(Change::Value(*object, name.clone()?, value.clone()?))
            }
            Change::Object(number, object) => {
                Ok(Change::Object(*number, object.as_ref().cloned()?))
            }
            Change::Task(id, task) => Ok(Change::Task(*id, task.as_ref().cloned()?)),
            Change::Link(number, link) => Ok(Change::Link(*number, link.as_ref().cloned()?)),
            Change::Greatest(number) => Ok(Change::Greatest(*number)),
            Change::Ending(ending) => Ok(Change::Ending(*ending)),
            Change::Next(next) => Ok(Change::Next(*next)),
        }
    }
}
