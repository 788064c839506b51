//! Functions that go on with the value of a verb.
ghost use Rattle.std.specs.Prelude.{IfOk, OnOk};
ghost use Rattle.rules.specs.Lines.{AreAgreeing};
ghost use Rattle.view.specs.Law.{Goes, Lasts};
ghost use Rattle.builtins.specs.BuiltinDeedsActing.{ActsFor};
ghost use Rattle.builtins.specs.Stages.{stage_does};

use crate::builtin_deeds::stages::Stage;
use crate::builtins_code::evaluating::eval_stage;
use crate::builtins_staged::moving::{accepted, told_to_enter};
use crate::builtins_staged::recycling::let_go;
use moo_task::deeds::Deeds;
use moo_task::effect::NativeEffect;
use moo_task::running::Running;
use moo_value::value::Value;
use std::alloc::{AllocError, Global};
use view::law::View;

/// What a stage does, with the value of the verb that was waited for, for the verb that now runs.
pub fn go_on<V: View>(
    alloc: Global,
    view: &mut V,
    deeds: &mut Deeds,
    task: &Running,
    stage: Stage,
    value: Value,
) -> Result<NativeEffect, AllocError>
    requires home { V.holds view.old (V.home view.old) }
    requires well_formed { AreAgreeing V.holds V.now view.old }
    ensures lasts { Lasts V.holds V.home V.anchor view.old view.new result }
    ensures does { IfOk result (λ e. Goes V.holds V.now view.old view.new
        (λ before after. ActsFor (λ s c. stage_does stage s c value) task.now deeds.old before e deeds.new after)) }
    ensures well_formed { OnOk result (AreAgreeing V.holds V.now view.new) }
{
    match stage {
        Stage::Evaluated => Ok(NativeEffect::Answers(eval_stage(alloc, value)?)),
        Stage::Created(object) => Ok(NativeEffect::Answers(Ok(object))),
        Stage::Recycled(object) => Ok(let_go(alloc, view, deeds, object)?),
        Stage::Asked(what, place) => {
            let let_in = value.is_true();
            Ok(accepted(alloc, view, &task.frame.call, what, place, let_in)?)
        },
        Stage::Left(what, place, before) => Ok(told_to_enter(
            alloc,
            view,
            &task.frame.call,
            what,
            place,
            before,
        )?),
        Stage::Ended => Ok(NativeEffect::Answers(Ok(Value::integer(0)))),
    }
}
