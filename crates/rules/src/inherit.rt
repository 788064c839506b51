//! Inheritance: the ancestors of an object, and the properties and verbs that it has from them (Programmer's Manual, "The
//! LambdaMOO Database").
//!
//! What is said of a view here is said of each world that it still allows. Each function asks for those facets alone that its
//! answer depends on.
pub mod line;
pub mod property;
pub mod verb;
