//! Parts of what properties hold. The values of a property's object and name come first, and those in the brackets behind them.
ghost use Rattle.std.specs.Prelude.{◌≡◌, ◌<◌, length, IfOk, OnOk};
ghost use Rattle.spec_moo.specs.Effects.Lists.{length_in};
ghost use Rattle.moo_value.specs.Answers.{answer_of};
ghost use Rattle.local_code.specs.Targets.{part_answer, whole_answer};
ghost use Rattle.rules.specs.Lines.{AreAgreeing};
ghost use Rattle.view.specs.Law.{Goes, Lasts, Tells};
ghost use Rattle.rules.specs.Writing.{IsWritten};
ghost use Rattle.running.specs.Parts.{part_there, part_written};

use local_code::moo_targets::parts::{part, put};
use moo_program::instruction::Bracket;
use moo_task::moo_machine::lengths::length as length_of;
use moo_value::answer::Answer;
use moo_value::error::MooError;
use moo_value::value::Value;
use rules::access::reading::read_property;
use rules::access::writing::write_property;
use std::alloc::{AllocError, Global};
use view::law::View;

/// The length, for `$`, of what stands behind brackets of what a property holds.
pub fn length_there<V: View>(
    alloc: Global,
    view: &mut V,
    programmer: i32,
    brackets: &[Bracket],
    values: &[Value],
) -> Result<Answer, AllocError>
    requires home { V.holds view.old (V.home view.old) }
    requires well_formed { AreAgreeing V.holds V.now view.old }
    ensures lasts { Lasts V.holds V.home V.anchor view.old view.new result }
    ensures left { IfOk result (λ a. Tells V.holds V.now view.old view.new
        (λ w. length_in (part_there w programmer brackets.now values.now) ≡ answer_of a)) }
{
    let [object, name, inner @ ..] = values else {
        return Ok(Err(MooError::TypeMismatch));
    };
    let whole = read_property(alloc, view, programmer, object, name)?;
    let answer = length_behind(alloc, whole, brackets, inner)?;
    Ok(answer)
}

// The same of a value, if there is one.
#[tactic(auto, using(local_code::proofs::Puts::none_behind))]
fn length_behind(
    alloc: Global,
    whole: Answer,
    brackets: &[Bracket],
    values: &[Value],
) -> Result<Answer, AllocError>
    ensures { IfOk result (λ a. length_in (part_answer (answer_of whole) brackets.now values.now) ≡ answer_of a) }
{
    match whole {
        Ok(whole) => match part(alloc, &whole, brackets, values)? {
            Ok(value) => Ok(length_of(&value)),
            Err(error) => Ok(Err(error)),
        },
        Err(error) => Ok(Err(error)),
    }
}

/// Puts a value behind brackets of what a property holds. What raises an error changes nothing.
pub fn write_part<V: View>(
    alloc: Global,
    view: &mut V,
    programmer: i32,
    brackets: &[Bracket],
    values: &[Value],
    value: Value,
) -> Result<Result<(), MooError>, AllocError>
    requires home { V.holds view.old (V.home view.old) }
    requires well_formed { AreAgreeing V.holds V.now view.old }
    requires brackets { 0 < length brackets.now }
    ensures lasts { Lasts V.holds V.home V.anchor view.old view.new result }
    ensures left { IfOk result (λ r. Goes V.holds V.now view.old view.new
        (λ before after. IsWritten before after (part_written before programmer brackets.now values.now value) r)) }
    ensures well_formed { OnOk result (AreAgreeing V.holds V.now view.new) }
{
    let [object, name, inner @ ..] = values else {
        return Ok(Err(MooError::TypeMismatch));
    };
    let whole = read_property(alloc, view, programmer, object, name)?;
    let changed = whole_with(alloc, whole, brackets, inner, value)?;
    match changed {
        Ok(whole) => {
            let written = write_property(alloc, view, programmer, object, name, whole)?;
            Ok(written)
        }
        Err(error) => Ok(Err(error)),
    }
}

// A value, if there is one, with another part behind brackets.
#[tactic(auto, using(crate::proofs::Writing::none_whole))]
fn whole_with(
    alloc: Global,
    whole: Answer,
    brackets: &[Bracket],
    values: &[Value],
    value: Value,
) -> Result<Answer, AllocError>
    requires { 0 < length brackets.now }
    ensures { IfOk result (λ a. whole_answer (answer_of whole) brackets.now values.now value ≡ answer_of a) }
{
    let mut whole = match whole {
        Ok(whole) => whole,
        Err(error) => return Ok(Err(error)),
    };
    match put(alloc, &mut whole, brackets, values, value)? {
        Ok(()) => Ok(Ok(whole)),
        Err(error) => Ok(Err(error)),
    }
}
