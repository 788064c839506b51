//! Steps over a view of a world: what happens where a connection opens, sends a line or ends, and where a task is due
//! (Programmer's Manual, "Server Commands and Database Assumptions").
#![tactic(auto)]

pub mod step_events;
pub mod step_links;
pub mod step_runs;
pub mod step_tasks;
