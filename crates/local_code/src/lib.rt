//! Instructions that ask nothing of the world: variables and parts of what they hold, handlers, and those that come one after another
//! in a verb (Programmer's Manual, "The MOO Programming Language").
#![tactic(auto)]

pub mod moo_run;
pub mod moo_stores;
pub mod moo_targets;
pub mod moo_unwind;
