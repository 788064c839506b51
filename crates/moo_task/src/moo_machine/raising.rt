//! Errors of the language on their way out of verbs.
ghost use Rattle.std.specs.Prelude.{◌≡◌, IfOk, OnOk};
ghost use Rattle.spec_value.specs.Literal.{error_message};
ghost use Rattle.spec_moo.specs.Leaving.{traced as traced_of, failure as failure_of, come_by as come_by_of};
ghost use Rattle.moo_value.specs.Errors.{code_of};
ghost use Rattle.moo_task.specs.Meant.{failure_meant};

use crate::moo_machine::call::Call;
use crate::moo_machine::leaving::{Failure, Traced};
use moo_value::error::MooError;
use moo_value::text::Text;
use moo_value::value::Value;
use std::alloc::{AllocError, Global};

/// An error where it is raised, with the verb that raises it.
pub fn raised(
    alloc: Global,
    error: MooError,
    player: i32,
    call: &Call,
) -> Result<Failure, AllocError>
    ensures { IfOk result (λ f. failure_meant f ≡ come_by_of player call.now (failure_of (code_of error))) }
{
    let message = message_of(alloc, error)?;
    let verb = traced(player, call)?;
    let mut traceback = Vec::new(alloc);
    traceback.push(verb)?;
    Ok(Failure {
        code: Value::error(error),
        message,
        value: Value::integer(0),
        traceback,
    })
}

impl Failure {
    /// It comes by another verb.
    pub fn come_by(&mut self, player: i32, call: &Call) -> Result<(), AllocError>
        ensures { OnOk result (failure_meant self.new ≡ come_by_of player call.now (failure_meant self.old)) }
    {
        let verb = traced(player, call)?;
        self.traceback.push(verb)?;
        Ok(())
    }
}

/// A verb under way, as tracebacks list it.
pub fn traced(player: i32, call: &Call) -> Result<Traced, AllocError>
    ensures { IfOk result (λ t. t ≡ traced_of player call.now) }
{
    let verb = call.verb.clone()?;
    Ok(Traced {
        this: call.this,
        verb,
        programmer: call.programmer,
        definer: call.definer,
        player,
    })
}

#[tactic(auto, using(crate::proofs::Messages::message_is_text))]
fn message_of(alloc: Global, error: MooError) -> Result<Text, AllocError>
    ensures { IfOk result (λ t. t ≡ error_message (code_of error)) }
{
    let text = Text::from_str(alloc, error.message())?;
    Ok(text)
}
