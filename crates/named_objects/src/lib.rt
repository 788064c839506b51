//! Objects from records whose slots have no names.
//!
//! The slots get the names of the properties along their objects' parents.
#![tactic(auto)]

pub mod family;
mod names;
pub mod record;
