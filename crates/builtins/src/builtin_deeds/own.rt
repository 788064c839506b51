//! What a task knows and does of itself.
ghost use Rattle.std.specs.Prelude.{IfOk};
ghost use Rattle.spec_world.specs.World.{World};
ghost use Rattle.builtins_view.specs.Requests.{own_of, said_of};
ghost use Rattle.builtins.specs.BuiltinDeedsActing.{ActsFor};

use crate::builtins_queue::callers::caller_perms;
use builtins_view::builtin_requests::own::Own;
use builtins_view::builtins_task::chance::{random, random_integer};
use builtins_view::builtins_task::tasks::{
    raise, raise_told, raise_with, suspend, suspend_for, task_id, ticks_left, time,
};
use moo_task::deeds::Deeds;
use moo_task::effect::NativeEffect;
use moo_task::running::Running;
use std::alloc::{AllocError, Global};

/// What a call about itself does for the verb that runs, in every world.
pub fn about_itself(
    alloc: Global,
    deeds: &mut Deeds,
    task: &Running,
    own: Own,
) -> Result<NativeEffect, AllocError>
    ensures { IfOk result (λ e. (w : World) → ActsFor (said_of (own_of own)) task.now deeds.old w e deeds.new w) }
{
    match own {
        Own::Suspend => Ok(suspend(deeds)?),
        Own::SuspendFor(seconds) => Ok(suspend_for(deeds, seconds)?),
        Own::TaskId => Ok(NativeEffect::Answers(task_id(deeds)?)),
        Own::TicksLeft => {
            let ticks = task.frame.state.ticks;
            Ok(NativeEffect::Answers(ticks_left(deeds, ticks)?))
        }
        Own::Raise(code) => Ok(NativeEffect::Complains(raise(alloc, code)?)),
        Own::RaiseTold(code, message) => {
            let failure = raise_told(alloc, code, message);
            Ok(NativeEffect::Complains(failure))
        }
        Own::RaiseWith(code, message, value) => {
            let failure = raise_with(alloc, code, message, value);
            Ok(NativeEffect::Complains(failure))
        }
        Own::CallerPerms => Ok(NativeEffect::Answers(caller_perms(task))),
        Own::Random => Ok(NativeEffect::Answers(random_integer(deeds)?)),
        Own::RandomTo(greatest) => Ok(NativeEffect::Answers(random(deeds, greatest)?)),
        Own::Time => Ok(NativeEffect::Answers(time(deeds)?)),
    }
}
