//! Tasks that wait, made of verbs that stand at calls of their programs.
mod arrive;
pub mod standing;
pub mod task;
