//! What a step sees of a world: the records of objects and links, questions and their answers, changes, and views.
//!
//! A step reads a world by questions and changes it by changes, over a `View`: what a generic function proves over a view holds
//! for every world that could have given the same answers.
#![tactic(auto)]

pub mod built_in;
pub mod change;
pub mod changes;
pub mod header;
pub mod keeping;
pub mod law;
pub mod link;
pub mod lists;
pub mod object;
pub mod part;
pub mod question;
pub mod readers;
mod same;
pub mod slot;
pub mod slots;
pub mod verb;
pub mod verb_names;
mod verb_reach;
pub mod words;
