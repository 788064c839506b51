//! Links: the threads that read and write sockets, and the rings of lines between them and the server's loop.
#![tactic(auto)]

mod backlog;
pub mod door;
pub mod lines;
mod link;
pub mod links;
mod reading;
mod shared;
mod writing;
