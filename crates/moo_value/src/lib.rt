//! Values of the MOO language (Programmer's Manual, "MOO value types"): integers, object numbers, texts, errors and lists.
//!
//! To contracts a `Value` is plain data, a `Datum` of the definitions; how it is shared in memory is not seen.
#![tactic(auto)]

pub mod answer;
pub mod compare;
pub mod error;
pub mod items;
pub mod operator;
pub mod read;
pub mod text;
pub mod value;
mod weigh;
pub mod write;
