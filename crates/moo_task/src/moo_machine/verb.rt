//! The verb that runs.
use crate::moo_machine::leaving::Leaving;
use crate::moo_machine::operands::Operands;
use moo_value::error::MooError;
use moo_value::value::Value;

/// Where the verb that runs stands in its code, what it holds, and how many ticks are left.
#[derive(Drop)]
pub struct State {
    pub place: usize,
    pub operands: Operands,
    /// The variables of its program, by the order of their names.
    pub slots: Vec<Option<Value>>,
    pub ticks: u32,
}

/// What one instruction did.
#[derive(Drop)]
pub enum Did {
    /// The verb goes on.
    Went,
    /// An error was raised.
    Raised(MooError),
    /// A part is left.
    Left(Leaving),
    /// There was no tick left to pay.
    RanOut,
    /// There was no operand, which the code of a program never meets.
    LacksOperand,
}
