//! What the place and the operands of a verb tell: whether it stands at a call of its program, and what the text of a world has of it.
pub mod laws;
