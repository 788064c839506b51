//! Lines and replies of a Telnet byte stream (RFC 854).
#![tactic(auto)]

mod command;
mod draft;
mod event;
pub mod laws;
mod line_buffer;
mod reader;

pub use event::Event;
pub use reader::Reader;
