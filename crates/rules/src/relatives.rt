//! Where an object stands: among the children of its parent, and in the contents of its place.
//!
//! What is said of a view here is said of each world that it still allows. Each change takes time linear in the list that changes.
pub mod children;
pub mod contents;
pub mod lists;
