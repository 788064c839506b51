//! What a list gave.
use crate::held::Mark;
use task_step::outcome::Outcome;
use world::worlds::World;

/// What a whole list gave.
#[derive(Drop)]
pub struct Report {
    /// The world after the steps.
    pub world: World,
    /// The outcome of each step, in order.
    pub outcomes: Vec<Outcome>,
    /// How each step was committed, in order.
    pub marks: Vec<Mark>,
}
