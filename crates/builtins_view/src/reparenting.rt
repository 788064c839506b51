//! Another parent for an object (Programmer's Manual, `chparent()`), and what it and all below it then lose and inherit.
//!
//! What is said of a view here is said of each world that it still allows. Of objects only those below and those on the two lines
//! of parents are asked.
pub mod along;
pub mod clashes;
pub mod heirs;
pub mod reparent;
