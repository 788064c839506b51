//! What a call of a built-in function of the world asks, by its arguments (Programmer's Manual, "Built-in Functions").
pub mod acting;
mod arguments;
pub mod asking;
pub mod calling;
pub mod changing;
pub mod own;
pub mod request;
mod several;
