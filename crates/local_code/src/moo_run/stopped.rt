//! How a run of a task stops.
use moo_task::effect::Waiting;
use moo_task::moo_machine::leaving::Traced;
use moo_task::outcome::End;

/// How a run of a task stops.
#[derive(Drop)]
pub enum Stop {
    Ends(End),
    /// A charge found no tick left. The verbs under way are listed, the innermost first.
    OutOfTicks(Vec<Traced>),
    /// The task waits, at a call of the verb that runs, for which others wait.
    Waits(Waiting),
}
