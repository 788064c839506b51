//! Worked rows of the definitions, on the small world of the fixture.
#![tactic(auto)]

pub mod families;
pub mod lines;
pub mod permissions;
pub mod places;
pub mod ranges;
pub mod texts;
pub mod worlds;
