//! Objects as they stand in lines.
use view::header::Header;
use view::object::Lists;
use view::slot::Slot;
use view::verb::Verb;

/// An object whose slots have no names yet. They stand in the order in which the object itself defines its properties,
/// then its parent, and so on upwards.
#[derive(Drop)]
pub struct ObjectRecord {
    pub number: i32,
    pub header: Header,
    pub lists: Lists,
    pub slots: Vec<Slot>,
    pub verbs: Vec<Verb>,
}
