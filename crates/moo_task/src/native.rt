//! Built-in functions that wait for a verb.
use moo_value::value::Value;

/// The built-in functions that call verbs.
#[derive(Clone, Copy)]
pub enum NativeName {
    Move,
    Create,
    Recycle,
    Eval,
}

/// A built-in function that waits for the value of a verb which it called.
#[derive(Drop)]
pub struct Native {
    pub name: NativeName,
    /// How far it has come.
    pub stage: u32,
    /// What it needs to go on.
    pub arguments: Vec<Value>,
}
