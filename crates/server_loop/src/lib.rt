//! The loop of `moo-server`: what its links send and the tasks that are due become lists of steps, which are run, and what they tell goes out.
#![tactic(auto)]

mod agenda;
mod draft;
mod gather;
mod left;
mod pace;
mod playing;
mod saving;
pub mod serving;
mod turn;
