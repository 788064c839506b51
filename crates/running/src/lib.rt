//! Tasks that run over a view of a world: the loop over instructions, and what its instructions do with properties, verbs and forks
//! (Programmer's Manual, "The MOO Programming Language").
#![tactic(auto)]

pub mod moo_asking;
pub mod moo_objects;
pub mod moo_run;
pub mod property_parts;
