//! Calls that call verbs, or run programs, and wait for them.
use moo_value::text::Text;

/// A call that may have to wait for a verb.
#[derive(Drop)]
pub enum Calling {
    /// `create(parent)`
    Create(i32),
    /// `create(parent, owner)`
    CreateFor(i32, i32),
    /// `recycle(object)`
    Recycle(i32),
    /// `move(object, place)`
    Move(i32, i32),
    /// `eval(program)`
    Eval(Text),
}
