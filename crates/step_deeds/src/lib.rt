//! What a step does besides changing objects: lines that it tells, tasks that it queues, links that it closes, verbs that it calls; and
//! the built-in functions that do so, as tasks call them.
//!
//! What is said of a view here is said of each world that it still allows. Each function asks for those facets alone that its
//! answer depends on.
#![tactic(auto)]

pub mod calling;
pub mod links;
pub mod natives;
pub mod queue;
pub mod telling;
