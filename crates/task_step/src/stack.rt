//! The stack of the threads that run steps.

/// How many bytes of stack a thread has that runs steps. Values may nest 65,535 deep, and what walks over them recurses.
pub const STACK_SIZE: usize = 64 * 1024 * 1024;
