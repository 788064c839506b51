//! Whether what a task holds that waits is that of a task of a well-formed world, and whether texts spell its programs.
//!
//! A task's type promises where its verbs stand. What is left to see are the built-in functions between them, the variables and
//! the values that verbs hold, how many verbs there are, and moments.
pub mod order;
pub mod outers;
pub mod spelled;
pub mod task;
