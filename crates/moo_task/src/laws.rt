//! Laws of tasks that wait.
ghost use Rattle.moo_task.specs.Laws.{StopsAreKept};

/// A run that stops as a segment of the definitions does, in a scene that agrees, leaves a task that may be kept where it
/// leaves one that waits: it has run, so it is not to be begun, and each of its verbs stands at a call.
pub fn stops()
    ensures { StopsAreKept }
{}
