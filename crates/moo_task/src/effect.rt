//! What a built-in function does.
use crate::moo_machine::call::Call;
use crate::moo_machine::leaving::Failure;
use crate::native::Native;
use moo_program::program::Program;
use moo_value::answer::Answer;
use moo_value::value::Value;

/// What a built-in function does besides changing the world and the step's deeds.
#[derive(Drop)]
pub enum NativeEffect {
    /// It has a value, or raises an error. A value that weighs too much is an error.
    Answers(Answer),
    /// It raises an error with a message and a value of its own.
    Complains(Failure),
    /// It calls a verb, or runs a program, and waits for the value.
    Begins {
        native: Native,
        call: Call,
        program: Program,
        arguments: Vec<Value>,
    },
    /// The task waits.
    Waits(Waiting),
    /// The task ends.
    Dies,
    /// The verb that calls it has another programmer.
    Becomes(i32),
}

/// Why a task waits; moments are in seconds.
#[derive(Drop)]
pub enum Waiting {
    /// It was forked, until a moment.
    Forked(u32),
    /// Until a moment, and the value that it then has.
    Timed(u32, Value),
    /// Until it is resumed.
    Idle,
    /// Until a line of a connection.
    ReadingOn(i32),
}
