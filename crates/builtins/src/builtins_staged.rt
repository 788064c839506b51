//! Built-in functions that call verbs of the objects that they change, and wait for them (Programmer's Manual, "Fundamental
//! Operations on Objects"): `create`, `move`, `recycle`.
//!
//! Each takes arguments of the right kinds. What it does is right for every world that the view still allows.
pub mod calling;
mod child;
pub mod create;
pub mod moving;
mod objects;
mod places;
pub mod recycling;
