//! A list of steps in the making.
use std::alloc::{AllocError, Global};
use task_step::step::{Event, GREATEST_NUMBER, Step};

/// The most steps of a list.
pub const LONGEST_LIST: usize = 64;

/// The next list of steps.
#[derive(Drop)]
pub struct Draft {
    /// The number of the next step.
    next: u32,
    /// The moment of every step, in seconds since 1970.
    moment: u32,
    /// The key of every step.
    key: [u8; 32],
    pub steps: Vec<Step>,
    /// The links whose Close step is in the list. Their numbers are free when what the list tells them was told.
    pub closed: Vec<u32>,
}

impl Draft {
    /// An empty list, and the memory for it.
    pub fn new(alloc: Global, next: u32, moment: u32, key: [u8; 32]) -> Result<Draft, AllocError> {
        Ok(Draft {
            next,
            moment,
            key,
            steps: Vec::with_capacity(alloc, LONGEST_LIST)?,
            closed: Vec::new(alloc),
        })
    }

    /// The moment of its steps, in seconds since 1970.
    pub fn moment(&self) -> u32 {
        self.moment
    }

    /// Whether no step can be added.
    pub fn is_full(&self) -> bool {
        self.steps.len() >= LONGEST_LIST || self.next > GREATEST_NUMBER
    }

    /// Adds a step.
    pub fn push(&mut self, event: Event) -> Result<(), AllocError> {
        self.steps.push(Step {
            number: self.next,
            moment: self.moment,
            key: self.key,
            event,
        })?;
        self.next = self.next.saturating_add(1);
        Ok(())
    }

    /// Adds the Close step of a link, if it is not in the list yet.
    pub fn close(&mut self, number: u32) -> Result<(), AllocError> {
        if self.closed.contains(&number) {
            return Ok(());
        }
        self.closed.push(number)?;
        self.push(Event::Close(number))
    }
}
