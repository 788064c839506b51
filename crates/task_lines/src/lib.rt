//! The lines of tasks that wait, read one by one: how a task waits, the verbs and built-in functions under way, their variables and the
//! values that they hold.
#![tactic(auto)]

pub mod entries;
mod entry;
mod frame;
mod head;
mod held;
mod names;
mod native;
mod stand;
mod start;
pub mod task;
mod variables;
mod waiting;
