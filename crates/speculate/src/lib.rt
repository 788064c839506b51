//! Lists of steps by several workers: guesses of steps on snapshots, and the board that commits them in their order.
#![tactic(auto)]

mod bench;
pub mod board;
mod commit;
mod crew;
mod desk;
mod fence;
mod finish;
pub mod gate;
pub mod guesses;
pub mod guessing;
pub mod held;
mod here;
mod lane;
mod lanes;
pub mod list;
mod luck;
mod pace;
mod plan;
pub mod report;
mod room;
pub mod schedules;
mod several;
pub mod shared;
pub mod sight;
mod slots_read;
mod stamps;
mod stretches;
mod trying;
mod watched;
mod weaving;
