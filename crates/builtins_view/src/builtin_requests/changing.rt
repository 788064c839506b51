//! Calls that change the world and no deeds of the step.
use crate::builtins_change::made::Info;
use crate::builtins_change::specifier::Words;
use moo_value::text::Text;
use moo_value::value::Value;

/// A call that changes the world.
#[derive(Drop)]
pub enum Changing {
    /// `chparent(object, parent)`
    Chparent(i32, i32),
    /// `set_property_info(object, name, {owner, bits})`
    SetPropertyInfo(i32, Text, i32, Text),
    /// `add_property(object, name, value, {owner, bits})`
    AddProperty(i32, Text, Value, i32, Text),
    /// `delete_property(object, name)`
    DeleteProperty(i32, Text),
    /// `clear_property(object, name)`
    ClearProperty(i32, Text),
    /// `set_verb_info(object, verb, {owner, bits, names})`
    SetVerbInfo(i32, Value, Info),
    /// `set_verb_args(object, verb, {direct object, preposition, indirect object})`
    SetVerbArgs(i32, Value, Words),
    /// `add_verb(object, {owner, bits, names}, {direct object, preposition, indirect object})`
    AddVerb(i32, Info, Words),
    /// `delete_verb(object, verb)`
    DeleteVerb(i32, Value),
    /// `set_verb_code(object, verb, lines)`
    SetVerbCode(i32, Value, Vec<Value>),
    /// `shutdown()`
    Shutdown,
}
