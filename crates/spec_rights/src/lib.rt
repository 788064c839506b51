//! The law of permissions, by definitions alone: nobody but a wizard or the owner changes what the permission table guards.
#![tactic(auto)]

pub mod laws;
