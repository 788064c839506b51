//! Texts that are evaluated (Programmer's Manual, `eval()`).
ghost use Rattle.std.specs.Prelude.{◌≡◌, [], ◌∷◌, IfOk};
ghost use Rattle.spec_value.specs.Datum.{text as text_value};
ghost use Rattle.spec_program.specs.ReadPrograms as by;
ghost use Rattle.spec_moo.specs.Scene.{Scene, in_world};
ghost use Rattle.spec_moo.specs.NativeEffect.{Caller, answers};
ghost use Rattle.spec_moo.specs.Calling as calling;
ghost use Rattle.spec_moo.specs.Natives.Verbs.{eval_row, evaluated as evaluated_of, eval_stage as stage_of};
ghost use Rattle.moo_value.specs.Answers.{answer_of};
ghost use Rattle.moo_syntax.specs.Answer.{IsAnswer};
ghost use Rattle.moo_task.specs.Effects.{effect_of};
ghost use Rattle.view.specs.Law.{Lasts, Tells};
ghost use Rattle.builtins.specs.Faults.{refusal_told};
ghost use Rattle.builtins.specs.Later.{with_call};

use crate::builtins_code::faults::fault_value;
use moo_compiler::compile::compile;
use moo_syntax::parse::answered;
use moo_task::effect::NativeEffect;
use moo_task::moo_machine::call::Call;
use moo_task::native::{Native, NativeName};
use moo_tree::statement::Tree;
use moo_value::answer::Answer;
use moo_value::error::MooError;
use moo_value::text::Text;
use moo_value::value::Value;
use rules::permissions::act::Act;
use rules::permissions::may::may;
use std::alloc::{AllocError, Global};
use syntax_fault::fault::SyntaxFault;
use view::law::View;

/// `eval`, called by a verb: a program's text runs with the verb's programmer, and `{1, value}` comes of it; of any other text `{0, {fault}}`.
/// `E_PERM` where the programmer is none.
pub fn eval<V: View>(
    alloc: Global,
    view: &mut V,
    call: &Call,
    text: &Text,
) -> Result<NativeEffect, AllocError>
    requires home { V.holds view.old (V.home view.old) }
    ensures lasts { Lasts V.holds V.home V.anchor view.old view.new result }
    ensures left { IfOk result (λ e. Tells V.holds V.now view.old view.new
        (λ w. (s : Scene) (c : Caller) → eval_row (in_world s w) (with_call c call.now) (text_value text.now ∷ []) ≡ effect_of e (in_world s w))) }
{
    if !may(view, call.programmer, &Act::Evaluate)? {
        return Ok(NativeEffect::Answers(Err(MooError::PermissionDenied)));
    }
    let effect = evaluated(alloc, call, text)?;
    Ok(effect)
}

// What a programmer's text begins, or its fault.
fn evaluated(alloc: Global, call: &Call, text: &Text) -> Result<NativeEffect, AllocError>
    ensures { IfOk result (λ e. (s : Scene) (c : Caller) → evaluated_of s (with_call c call.now) text.now (by.parsed text.now) ≡ effect_of e s) }
{
    let answer = answered(alloc, text.as_str().as_bytes())?;
    let effect = begun_or_refused(alloc, call, text, answer)?;
    Ok(effect)
}

// What a text begins of which this came, or its fault.
#[tactic(auto, using(crate::proofs::Told::fault_evaluates))]
fn begun_or_refused(
    alloc: Global,
    call: &Call,
    text: &Text,
    answer: Result<Tree, SyntaxFault>,
) -> Result<NativeEffect, AllocError>
    ensures { IfOk result (λ e. (p : by.Parsed) → IsAnswer answer p → (s : Scene) (c : Caller) → evaluated_of s (with_call c call.now) text.now p ≡ effect_of e s) }
{
    match answer {
        Ok(tree) => {
            let effect = begun(alloc, call, text, tree)?;
            Ok(effect)
        }
        Err(fault) => {
            let told = refused(alloc, fault)?;
            Ok(NativeEffect::Answers(Ok(told)))
        }
    }
}

// The program of this tree runs, and its value is waited for.
fn begun(alloc: Global, call: &Call, text: &Text, tree: Tree) -> Result<NativeEffect, AllocError>
    ensures { IfOk result (λ e. (s : Scene) (c : Caller) → evaluated_of s (with_call c call.now) text.now (by.program tree) ≡ effect_of e s) }
{
    let mut given = Vec::with_capacity(alloc, 1)?;
    given.push(Value::text(text.clone()?))?;
    let native = Native {
        name: NativeName::Eval,
        stage: 1,
        arguments: given,
    };
    let call = eval_call(alloc, call)?;
    let program = compile(alloc, tree)?;
    Ok(NativeEffect::Begins {
        native,
        call,
        program,
        arguments: Vec::new(alloc),
    })
}

// How the program of a text is called.
fn eval_call(alloc: Global, call: &Call) -> Result<Call, AllocError>
    ensures { IfOk result (λ d. d ≡ calling.eval_call call.now) }
{
    let verb = Text::from_str(alloc, "eval")?;
    Ok(Call {
        this: -1,
        caller: call.this,
        definer: -1,
        programmer: call.programmer,
        verb,
        debug: true,
    })
}

// `{0, {fault}}`
fn refused(alloc: Global, fault: SyntaxFault) -> Result<Value, AllocError>
    ensures { IfOk result (λ v. v ≡ refusal_told fault) }
{
    let told = fault_value(alloc, fault)?;
    let mut items = Vec::with_capacity(alloc, 2)?;
    items.push(Value::integer(0))?;
    items.push(told)?;
    Value::list(items)
}

/// `eval` when its program has this value: `{1, value}`.
pub fn eval_stage(alloc: Global, value: Value) -> Result<Answer, AllocError>
    ensures { IfOk result (λ a. (s : Scene) → stage_of s value ≡ answers s (answer_of a)) }
{
    let mut items = Vec::with_capacity(alloc, 2)?;
    items.push(Value::integer(1))?;
    items.push(value)?;
    let answer = Value::list(items)?;
    Ok(Ok(answer))
}
