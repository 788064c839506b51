//! The loop of the machine: tasks run over a view of the world, with the built-in functions that they are given.
mod asking;
pub mod calling;
mod forking;
pub mod leaving;
pub mod run;
pub mod step;
