//! Questions and answers.
ghost use Rattle.std.specs.Prelude.{◌≡◌, IfOk};

use crate::header::Header;
use crate::link::Link;
use crate::lists::{Names, Numbers, Objects, Players};
use crate::slot::Slot;
use crate::verb::Verbs;
use moo_task::task::Task;
use moo_value::text::Text;
use std::alloc::AllocError;

/// What a world can be asked.
#[derive(Drop)]
pub enum Question {
    /// An object's header.
    Header(i32),
    /// An object's children.
    Children(i32),
    /// An object's contents.
    Contents(i32),
    /// The names of the properties that an object defines.
    Defines(i32),
    /// A property's slot on an object, by the property's name; case is ignored.
    Slot(i32, Text),
    /// An object's own verbs.
    Verbs(i32),
    /// The task of an id that waits.
    Task(i32),
    /// The ids of the tasks that wait.
    Waiting,
    /// The link of a number.
    Link(i32),
    /// The ids of the tasks that read on a connection.
    Readers(i32),
    /// The connections of a person.
    Connections(i32),
    /// The connections on which players have logged in, with the players.
    Connected,
    /// The greatest number that an object has had, -1 where there was none.
    Greatest,
    /// Whether the server is about to end.
    Ending,
}

/// What a world answers. That it is not there is an answer too.
#[derive(Drop)]
pub enum Answer {
    Header(Option<Header>),
    Children(Option<Objects>),
    Contents(Option<Objects>),
    Defines(Option<Names>),
    /// That there is no such object, or that it has no such slot.
    Slot(Option<Option<Slot>>),
    Verbs(Option<Verbs>),
    Task(Option<Task>),
    Waiting(Numbers),
    Link(Option<Link>),
    Readers(Numbers),
    Connections(Numbers),
    Connected(Players),
    Greatest(i32),
    Ending(bool),
}

impl Clone for Question {
    ghost is_clone = { λ question copy. copy ≡ question };

    fn clone(&self) -> Result<Question, AllocError> {
        match self {
            Question::Header(object) => Ok(Question::Header(*object)),
            Question::Children(object) => Ok(Question::Children(*object)),
            Question::Contents(object) => Ok(Question::Contents(*object)),
            Question::Defines(object) => Ok(Question::Defines(*object)),
            Question::Slot(object, name) => Ok(Question::Slot(*object, name.clone()?)),
            Question::Verbs(object) => Ok(Question::Verbs(*object)),
            Question::Task(id) => Ok(Question::Task(*id)),
            Question::Waiting => Ok(Question::Waiting),
            Question::Link(number) => Ok(Question::Link(*number)),
            Question::Readers(connection) => Ok(Question::Readers(*connection)),
            Question::Connections(person) => Ok(Question::Connections(*person)),
            Question::Connected => Ok(Question::Connected),
            Question::Greatest => Ok(Question::Greatest),
            Question::Ending => Ok(Question::Ending),
        }
    }
}
