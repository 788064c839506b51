//! The code of programs and the machine that runs it, by definitions, and the proof that it does what the language means.
#![tactic(auto)]

pub mod machine;
