//! Requests: functions with their arguments.
ghost use Rattle.std.specs.Prelude.{◌≡◌, IfOk};
ghost use Rattle.builtin_table.specs.Functions.{row_of_function};
ghost use Rattle.builtin_table.specs.Sorts.{Fit};
ghost use Rattle.builtins_view.specs.Requests.{request_of};

use crate::builtin_requests::acting::Acting;
use crate::builtin_requests::arguments::{
    integer, nothing, object, object_and_text, object_and_value, object_and_verb,
    object_info_and_words, object_text_and_bits, object_text_value_and_bits, object_verb_and_info,
    object_verb_and_lines, object_verb_and_words, text, two_objects,
};
use crate::builtin_requests::asking::Asking;
use crate::builtin_requests::calling::Calling;
use crate::builtin_requests::changing::Changing;
use crate::builtin_requests::own::Own;
use crate::builtin_requests::several::{creating, raising, random, resuming, suspending};
use builtin_table::world_function::WorldFunction;
use moo_value::value::Value;
use std::alloc::{AllocError, Global};

/// What a call asks.
#[derive(Drop)]
pub enum Request {
    /// It only asks the world.
    Asks(Asking),
    /// It changes the world.
    Changes(Changing),
    /// It is about the task that makes it.
    OfItself(Own),
    /// It acts on links, other tasks and the server.
    Acts(Acting),
    /// It may have to wait for a verb.
    Calls(Calling),
}

/// A call of a function, with arguments that it takes.
pub fn read_request(
    alloc: Global,
    function: WorldFunction,
    arguments: &[Value],
) -> Result<Request, AllocError>
    requires { Fit (row_of_function function).wanted (row_of_function function).further arguments.now }
    ensures { IfOk result (λ q. request_of q ≡ (function, arguments.now)) }
{
    match function {
        WorldFunction::Valid => Ok(Request::Asks(Asking::Valid(object(arguments)))),
        WorldFunction::IsPlayer => Ok(Request::Asks(Asking::IsPlayer(object(arguments)))),
        WorldFunction::Parent => Ok(Request::Asks(Asking::Parent(object(arguments)))),
        WorldFunction::Children => Ok(Request::Asks(Asking::Children(object(arguments)))),
        WorldFunction::MaxObject => {
            nothing(arguments);
            Ok(Request::Asks(Asking::MaxObject))
        }
        WorldFunction::Players => {
            nothing(arguments);
            Ok(Request::Asks(Asking::Players))
        }
        WorldFunction::Create => Ok(Request::Calls(creating(arguments))),
        WorldFunction::Recycle => Ok(Request::Calls(Calling::Recycle(object(arguments)))),
        WorldFunction::Chparent => {
            let (object, parent) = two_objects(arguments);
            Ok(Request::Changes(Changing::Chparent(object, parent)))
        }
        WorldFunction::Move => {
            let (object, place) = two_objects(arguments);
            Ok(Request::Calls(Calling::Move(object, place)))
        }
        WorldFunction::SetPlayerFlag => {
            let (object, flag) = object_and_value(arguments)?;
            Ok(Request::Acts(Acting::SetPlayerFlag(object, flag)))
        }
        WorldFunction::Properties => Ok(Request::Asks(Asking::Properties(object(arguments)))),
        WorldFunction::PropertyInfo => {
            let (object, name) = object_and_text(alloc, arguments)?;
            Ok(Request::Asks(Asking::PropertyInfo(object, name)))
        }
        WorldFunction::SetPropertyInfo => {
            let (object, name, owner, bits) = object_text_and_bits(alloc, arguments)?;
            Ok(Request::Changes(Changing::SetPropertyInfo(object, name, owner, bits)))
        }
        WorldFunction::AddProperty => {
            let (object, name, value, owner, bits) = object_text_value_and_bits(alloc, arguments)?;
            Ok(Request::Changes(Changing::AddProperty(object, name, value, owner, bits)))
        }
        WorldFunction::DeleteProperty => {
            let (object, name) = object_and_text(alloc, arguments)?;
            Ok(Request::Changes(Changing::DeleteProperty(object, name)))
        }
        WorldFunction::IsClearProperty => {
            let (object, name) = object_and_text(alloc, arguments)?;
            Ok(Request::Asks(Asking::IsClearProperty(object, name)))
        }
        WorldFunction::ClearProperty => {
            let (object, name) = object_and_text(alloc, arguments)?;
            Ok(Request::Changes(Changing::ClearProperty(object, name)))
        }
        WorldFunction::Verbs => Ok(Request::Asks(Asking::Verbs(object(arguments)))),
        WorldFunction::VerbInfo => {
            let (object, which) = object_and_verb(arguments)?;
            Ok(Request::Asks(Asking::VerbInfo(object, which)))
        }
        WorldFunction::SetVerbInfo => {
            let (object, which, info) = object_verb_and_info(alloc, arguments)?;
            Ok(Request::Changes(Changing::SetVerbInfo(object, which, info)))
        }
        WorldFunction::VerbArgs => {
            let (object, which) = object_and_verb(arguments)?;
            Ok(Request::Asks(Asking::VerbArgs(object, which)))
        }
        WorldFunction::SetVerbArgs => {
            let (object, which, words) = object_verb_and_words(alloc, arguments)?;
            Ok(Request::Changes(Changing::SetVerbArgs(object, which, words)))
        }
        WorldFunction::AddVerb => {
            let (object, info, words) = object_info_and_words(alloc, arguments)?;
            Ok(Request::Changes(Changing::AddVerb(object, info, words)))
        }
        WorldFunction::DeleteVerb => {
            let (object, which) = object_and_verb(arguments)?;
            Ok(Request::Changes(Changing::DeleteVerb(object, which)))
        }
        WorldFunction::VerbCode => {
            let (object, which) = object_and_verb(arguments)?;
            Ok(Request::Asks(Asking::VerbCode(object, which)))
        }
        WorldFunction::SetVerbCode => {
            let (object, which, lines) = object_verb_and_lines(alloc, arguments)?;
            Ok(Request::Changes(Changing::SetVerbCode(object, which, lines)))
        }
        WorldFunction::Eval => Ok(Request::Calls(Calling::Eval(text(alloc, arguments)?))),
        WorldFunction::Notify => {
            let (object, line) = object_and_text(alloc, arguments)?;
            Ok(Request::Acts(Acting::Notify(object, line)))
        }
        WorldFunction::Read => {
            nothing(arguments);
            Ok(Request::Acts(Acting::Read))
        }
        WorldFunction::Suspend => Ok(Request::OfItself(suspending(arguments))),
        WorldFunction::Resume => Ok(Request::Acts(resuming(arguments)?)),
        WorldFunction::KillTask => Ok(Request::Acts(Acting::KillTask(integer(arguments)))),
        WorldFunction::QueuedTasks => {
            nothing(arguments);
            Ok(Request::Asks(Asking::QueuedTasks))
        }
        WorldFunction::TaskId => {
            nothing(arguments);
            Ok(Request::OfItself(Own::TaskId))
        }
        WorldFunction::TicksLeft => {
            nothing(arguments);
            Ok(Request::OfItself(Own::TicksLeft))
        }
        WorldFunction::Raise => Ok(Request::OfItself(raising(alloc, arguments)?)),
        WorldFunction::SetTaskPerms => Ok(Request::Acts(Acting::SetTaskPerms(object(arguments)))),
        WorldFunction::CallerPerms => {
            nothing(arguments);
            Ok(Request::OfItself(Own::CallerPerms))
        }
        WorldFunction::Random => Ok(Request::OfItself(random(arguments))),
        WorldFunction::Time => {
            nothing(arguments);
            Ok(Request::OfItself(Own::Time))
        }
        WorldFunction::ConnectedPlayers => {
            nothing(arguments);
            Ok(Request::Asks(Asking::ConnectedPlayers))
        }
        WorldFunction::BootPlayer => Ok(Request::Acts(Acting::BootPlayer(object(arguments)))),
        WorldFunction::DumpDatabase => {
            nothing(arguments);
            Ok(Request::Acts(Acting::DumpDatabase))
        }
        WorldFunction::Shutdown => {
            nothing(arguments);
            Ok(Request::Changes(Changing::Shutdown))
        }
    }
}
