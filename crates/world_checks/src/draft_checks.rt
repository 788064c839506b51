//! Whether the tasks of a world of which nothing is promised are those of a well-formed one, and whether texts spell its programs.
//!
//! What the records promise by their types is not looked at again, as where the verbs of a task stand.
pub mod spelled;
pub mod task;
pub mod tasks;
