//! What requests do.
ghost use Rattle.std.specs.Prelude.{IfOk, OnOk};
ghost use Rattle.rules.specs.Lines.{AreAgreeing};
ghost use Rattle.view.specs.Law.{Goes, Lasts};
ghost use Rattle.builtins_view.specs.Requests.{asking_of, changing_of, request_of, said_of};
ghost use Rattle.builtins.specs.BuiltinDeedsActing.{ActsFor};

use crate::builtin_calls::ask::ask;
use crate::builtin_calls::change::change;
use crate::builtin_deeds::acting::{act, programmer};
use crate::builtin_deeds::calling::call_verb;
use crate::builtin_deeds::own::about_itself;
use builtins_view::builtin_requests::asking::Asking;
use builtins_view::builtin_requests::changing::Changing;
use builtins_view::builtin_requests::request::Request;
use moo_task::deeds::Deeds;
use moo_task::effect::NativeEffect;
use moo_task::running::Running;
use std::alloc::{AllocError, Global};
use view::law::View;

/// What a request does for the verb that runs.
pub fn perform<V: View>(
    alloc: Global,
    view: &mut V,
    deeds: &mut Deeds,
    task: &Running,
    request: Request,
) -> Result<NativeEffect, AllocError>
    requires home { V.holds view.old (V.home view.old) }
    requires well_formed { AreAgreeing V.holds V.now view.old }
    ensures lasts { Lasts V.holds V.home V.anchor view.old view.new result }
    ensures does { IfOk result (λ e. Goes V.holds V.now view.old view.new
        (λ before after. ActsFor (said_of (request_of request)) task.now deeds.old before e deeds.new after)) }
    ensures well_formed { OnOk result (AreAgreeing V.holds V.now view.new) }
{
    match request {
        Request::Asks(asking) => Ok(asked(alloc, view, deeds, task, asking)?),
        Request::Changes(changing) => Ok(changed(alloc, view, deeds, task, changing)?),
        Request::OfItself(own) => Ok(about_itself(alloc, deeds, task, own)?),
        Request::Acts(acting) => Ok(act(view, deeds, task, acting)?),
        Request::Calls(calling) => Ok(call_verb(alloc, view, deeds, task, calling)?),
    }
}

fn asked<V: View>(
    alloc: Global,
    view: &mut V,
    deeds: &Deeds,
    task: &Running,
    asking: Asking,
) -> Result<NativeEffect, AllocError>
    requires home { V.holds view.old (V.home view.old) }
    requires well_formed { AreAgreeing V.holds V.now view.old }
    ensures lasts { Lasts V.holds V.home V.anchor view.old view.new result }
    ensures does { IfOk result (λ e. Goes V.holds V.now view.old view.new
        (λ before after. ActsFor (said_of (asking_of asking)) task.now deeds.now before e deeds.now after)) }
    ensures well_formed { OnOk result (AreAgreeing V.holds V.now view.new) }
{
    let _known = deeds.number;
    let who = programmer(task);
    let answer = ask(alloc, view, who, asking)?;
    Ok(NativeEffect::Answers(answer))
}

fn changed<V: View>(
    alloc: Global,
    view: &mut V,
    deeds: &Deeds,
    task: &Running,
    changing: Changing,
) -> Result<NativeEffect, AllocError>
    requires home { V.holds view.old (V.home view.old) }
    requires well_formed { AreAgreeing V.holds V.now view.old }
    ensures lasts { Lasts V.holds V.home V.anchor view.old view.new result }
    ensures does { IfOk result (λ e. Goes V.holds V.now view.old view.new
        (λ before after. ActsFor (said_of (changing_of changing)) task.now deeds.now before e deeds.now after)) }
    ensures well_formed { OnOk result (AreAgreeing V.holds V.now view.new) }
{
    let _known = deeds.number;
    let who = programmer(task);
    let answer = change(alloc, view, who, changing)?;
    Ok(NativeEffect::Answers(answer))
}
