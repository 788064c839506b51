//! What is done to links, other tasks and the server.
ghost use Rattle.std.specs.Prelude.{◌≡◌, IfOk, OnOk};
ghost use Rattle.rules.specs.Lines.{AreAgreeing};
ghost use Rattle.view.specs.Law.{Goes, Lasts};
ghost use Rattle.builtins_view.specs.Requests.{acting_of, said_of};
ghost use Rattle.builtins.specs.BuiltinDeedsActing.{ActsFor};

use crate::builtins_links::acting::set_task_perms;
use crate::builtins_links::links::{boot_player, read};
use crate::builtins_links::notify::notify;
use crate::builtins_objects::players::set_player_flag;
use crate::builtins_queue::kill::kill_task;
use crate::builtins_queue::resume::{resume, resume_with};
use builtins_view::builtin_requests::acting::Acting;
use builtins_view::builtins_task::server::dump_database;
use moo_task::deeds::Deeds;
use moo_task::effect::NativeEffect;
use moo_task::running::Running;
use std::alloc::AllocError;
use view::law::View;

/// What such a call does for the verb that runs.
pub fn act<V: View>(
    view: &mut V,
    deeds: &mut Deeds,
    task: &Running,
    acting: Acting,
) -> Result<NativeEffect, AllocError>
    requires home { V.holds view.old (V.home view.old) }
    requires well_formed { AreAgreeing V.holds V.now view.old }
    ensures lasts { Lasts V.holds V.home V.anchor view.old view.new result }
    ensures does { IfOk result (λ e. Goes V.holds V.now view.old view.new
        (λ before after. ActsFor (said_of (acting_of acting)) task.now deeds.old before e deeds.new after)) }
    ensures well_formed { OnOk result (AreAgreeing V.holds V.now view.new) }
{
    let who = programmer(task);
    match acting {
        Acting::SetPlayerFlag(object, flag) => Ok(NativeEffect::Answers(set_player_flag(
            view, deeds, who, object, &flag,
        )?)),
        Acting::Notify(object, line) => {
            Ok(NativeEffect::Answers(notify(view, deeds, who, object, line)?))
        }
        Acting::Read => Ok(read(view, deeds, task.player, who)?),
        Acting::Resume(id) => Ok(NativeEffect::Answers(resume(view, deeds, who, id)?)),
        Acting::ResumeWith(id, value) => {
            Ok(NativeEffect::Answers(resume_with(view, deeds, who, id, value)?))
        }
        Acting::KillTask(id) => Ok(kill_task(view, deeds, who, id)?),
        Acting::SetTaskPerms(object) => Ok(set_task_perms(view, who, object)?),
        Acting::BootPlayer(object) => {
            Ok(NativeEffect::Answers(boot_player(view, deeds, who, object)?))
        }
        Acting::DumpDatabase => Ok(NativeEffect::Answers(dump_database(view, deeds, who)?)),
    }
}

/// The programmer of the verb that runs.
pub fn programmer(task: &Running) -> i32
    ensures { result ≡ task.now.frame.call.programmer }
{
    task.frame.call.programmer
}
