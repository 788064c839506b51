//! Why a text is no program, and where.
#![tactic(auto)]

pub mod fault;
