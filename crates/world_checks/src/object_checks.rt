//! Checks of the objects and links of a draft: whether they are those of a well-formed world.
//!
//! What is to be known of objects far away is guessed first, as marks of numbers of which nothing is promised: a rank of each
//! object, higher than that of its parent, and its place among its parent's children. With the guess each object can be checked
//! beside its neighbours alone, so that the whole takes time in proportion to the objects, their lists and their slots.
pub mod agree;
mod guess;
mod kin;
pub mod links;
mod names;
pub mod way;
pub mod whole;
