//! Copies of steps, and their comparison.
ghost use Rattle.std.specs.Prelude.{◌≡◌, ◌↔◌, IsTrue, IfOk};

use crate::step::{Event, Step};
use std::alloc::{AllocError, Global};

impl Step {
    /// Whether two steps are the same.
    pub fn same(&self, other: &Step) -> bool
        ensures { IsTrue result ↔ self.now ≡ other.now }
    {
        self.number == other.number
            && self.moment == other.moment
            && self.key.as_slice() == other.key.as_slice()
            && self.event.same(&other.event)
    }
}

impl Event {
    ghost use Rattle.task_step.specs.StepView.{event_of};

    fn same(&self, other: &Event) -> bool
        ensures { IsTrue result ↔ event_of self.now ≡ event_of other.now }
    {
        match (self, other) {
            (Event::Open(a), Event::Open(b)) => a == b,
            (Event::Close(a), Event::Close(b)) => a == b,
            (Event::Line(a, text), Event::Line(b, words)) => {
                a == b && text.as_str() == words.as_str()
            }
            (Event::Ready(a), Event::Ready(b)) => a == b,
            _ => false,
        }
    }
}

impl Clone for Step {
    ghost is_clone = { λ step copy. copy ≡ step };

    fn clone(&self) -> Result<Step, AllocError> {
        Ok(Step {
            number: self.number,
            moment: self.moment,
            key: self.key,
            event: self.event.clone()?,
        })
    }
}

impl Clone for Event {
    ghost is_clone = { λ event copy. copy ≡ event };

    fn clone(&self) -> Result<Event, AllocError> {
        match self {
            Event::Open(connection) => Ok(Event::Open(*connection)),
            Event::Line(connection, text) => Ok(Event::Line(*connection, text.clone()?)),
            Event::Close(connection) => Ok(Event::Close(*connection)),
            Event::Ready(task) => Ok(Event::Ready(*task)),
        }
    }
}

/// The steps once more.
pub fn copied(alloc: Global, steps: &[Step]) -> Result<Vec<Step>, AllocError>
    ensures { IfOk result (λ v. v.items ≡ steps.now) }
{
    let mut all = Vec::with_capacity(alloc, steps.len())?;
    'step: for step in steps {
        all.push(step.clone()?)?;
    }
    Ok(all)
}
