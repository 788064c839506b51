//! Whether texts spell a program, by its parts: it is not spelled and read again for that.
mod expression;
mod names;
mod statement;
pub mod tree;
