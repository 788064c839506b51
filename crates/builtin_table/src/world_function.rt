//! The built-in functions of the world by their names.
ghost use Rattle.std.specs.Prelude.{◌≡◌, ◌++◌, length, map, option_map};
ghost use Rattle.spec_moo.specs.Properties.{row_of};
ghost use Rattle.builtin_table.specs.Functions.{row_of_function, world_rows, function_in, object_names, property_names, verb_names, task_names};
ghost use Rattle.builtin_table.specs.Sorts.{sort_of};

use crate::sort::Sort;

/// A built-in function that is not of values alone (Programmer's Manual, "Built-in Functions").
#[derive(Clone, Copy, PartialEq, Eq, Debug)]
pub enum WorldFunction {
    /// `valid`
    Valid,
    /// `is_player`
    IsPlayer,
    /// `parent`
    Parent,
    /// `children`
    Children,
    /// `max_object`
    MaxObject,
    /// `players`
    Players,
    /// `create`
    Create,
    /// `recycle`
    Recycle,
    /// `chparent`
    Chparent,
    /// `move`
    Move,
    /// `set_player_flag`
    SetPlayerFlag,
    /// `properties`
    Properties,
    /// `property_info`
    PropertyInfo,
    /// `set_property_info`
    SetPropertyInfo,
    /// `add_property`
    AddProperty,
    /// `delete_property`
    DeleteProperty,
    /// `is_clear_property`
    IsClearProperty,
    /// `clear_property`
    ClearProperty,
    /// `verbs`
    Verbs,
    /// `verb_info`
    VerbInfo,
    /// `set_verb_info`
    SetVerbInfo,
    /// `verb_args`
    VerbArgs,
    /// `set_verb_args`
    SetVerbArgs,
    /// `add_verb`
    AddVerb,
    /// `delete_verb`
    DeleteVerb,
    /// `verb_code`
    VerbCode,
    /// `set_verb_code`
    SetVerbCode,
    /// `eval`
    Eval,
    /// `notify`
    Notify,
    /// `read`
    Read,
    /// `suspend`
    Suspend,
    /// `resume`
    Resume,
    /// `kill_task`
    KillTask,
    /// `queued_tasks`
    QueuedTasks,
    /// `task_id`
    TaskId,
    /// `ticks_left`
    TicksLeft,
    /// `raise`
    Raise,
    /// `set_task_perms`
    SetTaskPerms,
    /// `caller_perms`
    CallerPerms,
    /// `random`
    Random,
    /// `time`
    Time,
    /// `connected_players`
    ConnectedPlayers,
    /// `boot_player`
    BootPlayer,
    /// `dump_database`
    DumpDatabase,
    /// `shutdown`
    Shutdown,
}

impl WorldFunction {
    /// The function of a name in lower case.
    #[tactic(auto, using(crate::proofs::Names::of_objects, crate::proofs::Names::of_properties, crate::proofs::Names::of_verbs, crate::proofs::Names::of_tasks))]
    pub fn from_name(name: &str) -> Option<WorldFunction>
        ensures { option_map row_of_function result ≡ row_of world_rows name.now }
    {
        if let Some(function) = of_objects(name) {
            return Some(function);
        }
        if let Some(function) = of_properties(name) {
            return Some(function);
        }
        if let Some(function) = of_verbs(name) {
            return Some(function);
        }
        of_tasks(name)
    }

    /// What its arguments are to be: those that it wants, and then those that it takes besides.
    pub fn sorts(self) -> &'static [Sort]
        ensures { map sort_of result.now ≡ (row_of_function self).wanted ++ (row_of_function self).further }
    {
        match self {
            WorldFunction::Valid
            | WorldFunction::IsPlayer
            | WorldFunction::Parent
            | WorldFunction::Children
            | WorldFunction::Recycle
            | WorldFunction::Properties
            | WorldFunction::Verbs
            | WorldFunction::SetTaskPerms
            | WorldFunction::BootPlayer => &[Sort::Object],
            WorldFunction::MaxObject
            | WorldFunction::Players
            | WorldFunction::Read
            | WorldFunction::QueuedTasks
            | WorldFunction::TaskId
            | WorldFunction::TicksLeft
            | WorldFunction::CallerPerms
            | WorldFunction::Time
            | WorldFunction::ConnectedPlayers
            | WorldFunction::DumpDatabase
            | WorldFunction::Shutdown => &[],
            WorldFunction::Create | WorldFunction::Chparent | WorldFunction::Move => &[
                Sort::Object,
                Sort::Object,
            ],
            WorldFunction::SetPlayerFlag => &[Sort::Object, Sort::AnyValue],
            WorldFunction::PropertyInfo
            | WorldFunction::DeleteProperty
            | WorldFunction::IsClearProperty
            | WorldFunction::ClearProperty
            | WorldFunction::Notify => &[Sort::Object, Sort::Text],
            WorldFunction::SetPropertyInfo => &[Sort::Object, Sort::Text, Sort::OwnerAndBits],
            WorldFunction::AddProperty => &[
                Sort::Object,
                Sort::Text,
                Sort::AnyValue,
                Sort::OwnerAndBits,
            ],
            WorldFunction::VerbInfo
            | WorldFunction::VerbArgs
            | WorldFunction::DeleteVerb
            | WorldFunction::VerbCode => &[Sort::Object, Sort::Verb],
            WorldFunction::SetVerbInfo => &[Sort::Object, Sort::Verb, Sort::OwnerBitsNames],
            WorldFunction::SetVerbArgs => &[Sort::Object, Sort::Verb, Sort::VerbSpecifier],
            WorldFunction::AddVerb => &[Sort::Object, Sort::OwnerBitsNames, Sort::VerbSpecifier],
            WorldFunction::SetVerbCode => &[Sort::Object, Sort::Verb, Sort::TextLines],
            WorldFunction::Eval => &[Sort::Text],
            WorldFunction::Suspend | WorldFunction::KillTask | WorldFunction::Random => &[
                Sort::Integer,
            ],
            WorldFunction::Resume => &[Sort::Integer, Sort::AnyValue],
            WorldFunction::Raise => &[Sort::AnyValue, Sort::Text, Sort::AnyValue],
        }
    }

    /// How many arguments it wants at least.
    pub fn wanted(self) -> usize
        ensures { result ≡ length (row_of_function self).wanted }
    {
        match self {
            WorldFunction::MaxObject
            | WorldFunction::Players
            | WorldFunction::Read
            | WorldFunction::Suspend
            | WorldFunction::QueuedTasks
            | WorldFunction::TaskId
            | WorldFunction::TicksLeft
            | WorldFunction::CallerPerms
            | WorldFunction::Random
            | WorldFunction::Time
            | WorldFunction::ConnectedPlayers
            | WorldFunction::DumpDatabase
            | WorldFunction::Shutdown => 0,
            WorldFunction::Valid
            | WorldFunction::IsPlayer
            | WorldFunction::Parent
            | WorldFunction::Children
            | WorldFunction::Create
            | WorldFunction::Recycle
            | WorldFunction::Properties
            | WorldFunction::Verbs
            | WorldFunction::Eval
            | WorldFunction::Resume
            | WorldFunction::KillTask
            | WorldFunction::Raise
            | WorldFunction::SetTaskPerms
            | WorldFunction::BootPlayer => 1,
            WorldFunction::Chparent
            | WorldFunction::Move
            | WorldFunction::SetPlayerFlag
            | WorldFunction::PropertyInfo
            | WorldFunction::DeleteProperty
            | WorldFunction::IsClearProperty
            | WorldFunction::ClearProperty
            | WorldFunction::VerbInfo
            | WorldFunction::VerbArgs
            | WorldFunction::DeleteVerb
            | WorldFunction::VerbCode
            | WorldFunction::Notify => 2,
            WorldFunction::SetPropertyInfo
            | WorldFunction::SetVerbInfo
            | WorldFunction::SetVerbArgs
            | WorldFunction::AddVerb
            | WorldFunction::SetVerbCode => 3,
            WorldFunction::AddProperty => 4,
        }
    }
}

// The function of a name among those of objects.
fn of_objects(name: &str) -> Option<WorldFunction>
    ensures { result ≡ function_in name.now object_names }
{
    match name {
        "valid" => Some(WorldFunction::Valid),
        "is_player" => Some(WorldFunction::IsPlayer),
        "parent" => Some(WorldFunction::Parent),
        "children" => Some(WorldFunction::Children),
        "max_object" => Some(WorldFunction::MaxObject),
        "players" => Some(WorldFunction::Players),
        "create" => Some(WorldFunction::Create),
        "recycle" => Some(WorldFunction::Recycle),
        "chparent" => Some(WorldFunction::Chparent),
        "move" => Some(WorldFunction::Move),
        "set_player_flag" => Some(WorldFunction::SetPlayerFlag),
        _ => None,
    }
}

// The function of a name among those of properties.
fn of_properties(name: &str) -> Option<WorldFunction>
    ensures { result ≡ function_in name.now property_names }
{
    match name {
        "properties" => Some(WorldFunction::Properties),
        "property_info" => Some(WorldFunction::PropertyInfo),
        "set_property_info" => Some(WorldFunction::SetPropertyInfo),
        "add_property" => Some(WorldFunction::AddProperty),
        "delete_property" => Some(WorldFunction::DeleteProperty),
        "is_clear_property" => Some(WorldFunction::IsClearProperty),
        "clear_property" => Some(WorldFunction::ClearProperty),
        _ => None,
    }
}

// The function of a name among those of verbs.
fn of_verbs(name: &str) -> Option<WorldFunction>
    ensures { result ≡ function_in name.now verb_names }
{
    match name {
        "verbs" => Some(WorldFunction::Verbs),
        "verb_info" => Some(WorldFunction::VerbInfo),
        "set_verb_info" => Some(WorldFunction::SetVerbInfo),
        "verb_args" => Some(WorldFunction::VerbArgs),
        "set_verb_args" => Some(WorldFunction::SetVerbArgs),
        "add_verb" => Some(WorldFunction::AddVerb),
        "delete_verb" => Some(WorldFunction::DeleteVerb),
        "verb_code" => Some(WorldFunction::VerbCode),
        "set_verb_code" => Some(WorldFunction::SetVerbCode),
        "eval" => Some(WorldFunction::Eval),
        _ => None,
    }
}

// The function of a name among those of tasks, links and the server.
fn of_tasks(name: &str) -> Option<WorldFunction>
    ensures { result ≡ function_in name.now task_names }
{
    match name {
        "notify" => Some(WorldFunction::Notify),
        "read" => Some(WorldFunction::Read),
        "suspend" => Some(WorldFunction::Suspend),
        "resume" => Some(WorldFunction::Resume),
        "kill_task" => Some(WorldFunction::KillTask),
        "queued_tasks" => Some(WorldFunction::QueuedTasks),
        "task_id" => Some(WorldFunction::TaskId),
        "ticks_left" => Some(WorldFunction::TicksLeft),
        "raise" => Some(WorldFunction::Raise),
        "set_task_perms" => Some(WorldFunction::SetTaskPerms),
        "caller_perms" => Some(WorldFunction::CallerPerms),
        "random" => Some(WorldFunction::Random),
        "time" => Some(WorldFunction::Time),
        "connected_players" => Some(WorldFunction::ConnectedPlayers),
        "boot_player" => Some(WorldFunction::BootPlayer),
        "dump_database" => Some(WorldFunction::DumpDatabase),
        "shutdown" => Some(WorldFunction::Shutdown),
        _ => None,
    }
}
