//! The machine that runs the code of programs: what each instruction does to the verb that runs.
pub mod call;
pub mod held;
pub mod leaving;
pub mod left;
pub mod lengths;
pub mod lists;
pub mod loops;
pub mod operands;
pub mod raising;
pub mod receiving;
pub mod statements;
pub mod values;
pub mod variables;
pub mod verb;
