//! Functions that call verbs, or run programs.
ghost use Rattle.std.specs.Prelude.{IfOk, OnOk};
ghost use Rattle.rules.specs.Lines.{AreAgreeing};
ghost use Rattle.view.specs.Law.{Goes, Lasts};
ghost use Rattle.builtins_view.specs.Requests.{calling_of, said_of};
ghost use Rattle.builtins.specs.BuiltinDeedsActing.{ActsFor};

use crate::builtins_code::evaluating::eval;
use crate::builtins_staged::create::{create, create_for};
use crate::builtins_staged::moving::move_object;
use crate::builtins_staged::recycling::recycle;
use builtins_view::builtin_requests::calling::Calling;
use moo_task::deeds::Deeds;
use moo_task::effect::NativeEffect;
use moo_task::running::Running;
use std::alloc::{AllocError, Global};
use view::law::View;

/// What such a call does for the verb that runs.
pub fn call_verb<V: View>(
    alloc: Global,
    view: &mut V,
    deeds: &mut Deeds,
    task: &Running,
    calling: Calling,
) -> Result<NativeEffect, AllocError>
    requires home { V.holds view.old (V.home view.old) }
    requires well_formed { AreAgreeing V.holds V.now view.old }
    ensures lasts { Lasts V.holds V.home V.anchor view.old view.new result }
    ensures does { IfOk result (λ e. Goes V.holds V.now view.old view.new
        (λ before after. ActsFor (said_of (calling_of calling)) task.now deeds.old before e deeds.new after)) }
    ensures well_formed { OnOk result (AreAgreeing V.holds V.now view.new) }
{
    match calling {
        Calling::Create(parent) => Ok(create(alloc, view, &task.frame.call, parent)?),
        Calling::CreateFor(parent, owner) => Ok(create_for(
            alloc,
            view,
            &task.frame.call,
            parent,
            owner,
        )?),
        Calling::Recycle(object) => Ok(recycle(alloc, view, deeds, &task.frame.call, object)?),
        Calling::Move(what, place) => Ok(move_object(alloc, view, &task.frame.call, what, place)?),
        Calling::Eval(text) => Ok(eval(alloc, view, &task.frame.call, &text)?),
    }
}
