//! Worlds of objects, tasks and links: their records, what is asked of them, and views.
//!
//! A `World` is well formed by its type. Its records are shared with the snapshots that were taken of it. To contracts it is
//! the plain world of the definitions, and the number of views that were opened to change it. A step reads a world by questions
//! and changes it by changes, over a `View`: what a generic function proves over a view holds for every world that could have
//! given the same answers. `Live` is a view of the world itself, whose changes are kept or forgotten at its end; `Alone` is one
//! of a borrowed world, which gives the changes at its end; `Marking` is such a one that also tells on which objects slots were asked
//! for; a `Tracked` one records what was read, so that another thread can check a guess later.
#![tactic(auto)]

pub mod alone;
mod answers;
mod asked;
mod called;
mod choice;
pub mod count;
pub mod draft;
mod edits;
pub mod fork;
pub mod keeping;
mod late;
mod links;
pub mod live;
pub mod marking;
mod moments;
mod near;
mod noted;
mod overlay;
mod pairs;
pub mod prepared;
mod questions;
mod records;
pub mod seen;
pub mod shared;
mod tasks;
pub mod tracked;
mod trail;
pub mod worlds;
mod writing;
