//! What verbs and built-in functions hold that wait: which values, and whether they are such (Programmer's Manual, "The MOO Programming
//! Language").
#![tactic(auto)]

mod count;
pub mod down;
pub mod fits;
pub mod held;
mod kinds;
mod leaving;
mod loops;
pub mod native;
mod walk;
pub mod wanted;
