//! Calls that only ask the world.
use moo_value::text::Text;
use moo_value::value::Value;

/// A call that changes nothing.
#[derive(Drop)]
pub enum Asking {
    /// `valid(object)`
    Valid(i32),
    /// `is_player(object)`
    IsPlayer(i32),
    /// `parent(object)`
    Parent(i32),
    /// `children(object)`
    Children(i32),
    /// `max_object()`
    MaxObject,
    /// `players()`
    Players,
    /// `properties(object)`
    Properties(i32),
    /// `property_info(object, name)`
    PropertyInfo(i32, Text),
    /// `is_clear_property(object, name)`
    IsClearProperty(i32, Text),
    /// `verbs(object)`
    Verbs(i32),
    /// `verb_info(object, verb)`
    VerbInfo(i32, Value),
    /// `verb_args(object, verb)`
    VerbArgs(i32, Value),
    /// `verb_code(object, verb)`
    VerbCode(i32, Value),
    /// `queued_tasks()`
    QueuedTasks,
    /// `connected_players()`
    ConnectedPlayers,
}
