//! Worked rows of the whole language, on the small world of the fixture.
#![tactic(auto)]

pub mod rows;
pub mod steps;
pub mod tried;
