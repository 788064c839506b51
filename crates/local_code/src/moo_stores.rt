//! Instructions that assign to parts of what variables hold, and those that scatter a list among variables.
pub mod parts;
pub mod perform;
pub mod scatter;
mod shares;
mod slots;
mod wanted;
