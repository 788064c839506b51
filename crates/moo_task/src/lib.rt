//! Tasks: under way, and waiting.
//!
//! Of a task under way the verb that runs, what waits for it, what the step has done besides changing the world, and how verbs
//! are entered. A task that waits is a record of a world: for whom, why, and the verbs and built-in functions under way, shared
//! by their owners. To contracts a task is the plain task of the definitions, so what it keeps stands for exactly one pending list.
#![tactic(auto)]

pub mod begin;
pub mod copies;
pub mod deeds;
pub mod effect;
pub mod frame;
pub mod laws;
pub mod moo_forks;
pub mod moo_machine;
pub mod native;
pub mod outcome;
pub mod outers;
pub mod perform;
pub mod room;
pub mod running;
mod same;
pub mod start;
pub mod task;
pub mod task_telling;
pub mod variables;
