//! Whether a draft, of which nothing is promised, may be a world.
#![tactic(auto)]

pub mod draft_checks;
pub mod held_checks;
pub mod object_checks;
pub mod piece_checks;
pub mod sound;
pub mod table_checks;
pub mod task_checks;
pub mod tree_checks;
