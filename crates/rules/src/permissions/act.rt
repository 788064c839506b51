//! What a programmer would do.
use moo_value::text::Text;

/// What a programmer would do.
#[derive(Drop)]
pub enum Act {
    /// To read a property's slot on an object, or to ask for its owner and its bits or whether it is clear.
    ReadSlot(i32, Text),
    /// To write a property's slot on an object, to clear it, or to set its owner and its bits.
    WriteSlot(i32, Text),
    /// To write an object's name.
    WriteName(i32),
    /// To write the bits r, w, f of an object.
    WriteBits(i32),
    /// To write an object's owner, or its flags programmer and wizard.
    WriteStanding(i32),
    /// To write an object's location or contents as a property: nobody may.
    WritePlace(i32),
    /// To ask for the names of an object's verbs or of its properties.
    ListMembers(i32),
    /// To add or delete a verb or a property.
    ChangeMembers(i32),
    /// To give what one owner has to another. What is added or created is at first the programmer's own.
    ChangeOwner(i32, i32),
    /// To ask for a verb's owner, bits and names, its specifier or its code; by its place on the object, from 0.
    ReadVerb(i32, usize),
    /// To set a verb's owner, bits and names, or its specifier.
    WriteVerb(i32, usize),
    /// To set a verb's code.
    ProgramVerb(i32, usize),
    /// `eval`
    Evaluate,
    /// To make or move an object below a parent.
    HaveChild(i32),
    /// `chparent`, `recycle` and `move`
    ChangeObject(i32),
    /// `notify`, `boot_player`, `read` and `set_task_perms`
    ActAs(i32),
    /// `kill_task` and `resume`, by the programmer of the task's innermost frame.
    ControlTask(i32),
    /// `set_player_flag`, `dump_database` and `shutdown`
    Administer,
}
