//! Calls that act on links, other tasks and the server.
use moo_value::text::Text;
use moo_value::value::Value;

/// A call over the world and the deeds of the step.
#[derive(Drop)]
pub enum Acting {
    /// `set_player_flag(object, flag)`
    SetPlayerFlag(i32, Value),
    /// `notify(object, line)`
    Notify(i32, Text),
    /// `read()`
    Read,
    /// `resume(task)`
    Resume(i32),
    /// `resume(task, value)`
    ResumeWith(i32, Value),
    /// `kill_task(task)`
    KillTask(i32),
    /// `set_task_perms(object)`
    SetTaskPerms(i32),
    /// `boot_player(object)`
    BootPlayer(i32),
    /// `dump_database()`
    DumpDatabase,
}
