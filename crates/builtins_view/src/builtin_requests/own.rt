//! Calls about the task that makes them.
use moo_value::text::Text;
use moo_value::value::Value;

/// A call for which the world does not count.
#[derive(Drop)]
pub enum Own {
    /// `suspend()`
    Suspend,
    /// `suspend(seconds)`
    SuspendFor(i32),
    /// `task_id()`
    TaskId,
    /// `ticks_left()`
    TicksLeft,
    /// `raise(code)`
    Raise(Value),
    /// `raise(code, message)`
    RaiseTold(Value, Text),
    /// `raise(code, message, value)`
    RaiseWith(Value, Text, Value),
    /// `caller_perms()`
    CallerPerms,
    /// `random()`
    Random,
    /// `random(greatest)`
    RandomTo(i32),
    /// `time()`
    Time,
}
