//! The instructions that ask the world: properties that are read and assigned to, and calls of verbs. Each function is one
//! instruction of the verb that runs, over a view; what is said of the view is said of each world that it still allows.
pub mod calling;
pub mod named;
pub mod properties;
