//! Where an instruction leads a task.
use crate::effect::Waiting;
use crate::moo_machine::leaving::{Failure, Leaving};
use moo_value::value::Value;

/// Where an instruction, a call or a stage of a built-in function leads a task.
#[derive(Drop)]
pub enum Outcome {
    /// A verb goes on.
    On,
    /// A part of the verb that runs is left.
    Leaves(Leaving),
    /// The task has ended.
    Ends(End),
    /// There was no tick left to pay.
    RanOut,
    /// The task waits at a call of the verb that runs.
    Waits(Waiting),
    /// There was no operand, which the code of a program never meets.
    LacksOperand,
}

/// How a task ends by itself.
#[derive(Drop)]
pub enum End {
    /// The outermost verb gave a value.
    Done(Value),
    /// An error came out of the outermost verb.
    Raised(Failure),
    Killed,
}
