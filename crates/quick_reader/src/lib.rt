//! A fast reader of programs.
//!
//! It guesses: nothing is promised of the tree that it finds, but that it ends, is safe, and nests no deeper than a program may. Whoever
//! uses the tree looks first whether it is one of the grammar and whether its canonical spelling has the tokens of the text.
#![tactic(auto)]

mod beginning;
mod expression;
mod expressions;
pub mod guess;
mod infix;
mod limits;
mod literal;
mod names;
mod pair;
mod reader;
pub mod room;
mod scatter;
mod several;
mod sign;
mod start;
mod statement;
mod statements;
mod step;
mod target;
mod within;
mod word;
