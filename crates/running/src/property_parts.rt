//! The instructions on parts of properties: `$` of one, and assignments to one. Each function is one instruction of the verb
//! that runs, over a view; what is said of the view is said of each world that it still allows.
pub mod instructions;
mod parts;
