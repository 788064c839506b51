//! The verbs that calls run.
ghost use Rattle.std.specs.Prelude.{◌≡◌, IfOk, OnOk};
ghost use Rattle.spec_value.specs.Datum.{Data};
ghost use Rattle.spec_world.specs.World.{object_at};
ghost use Rattle.spec_moo.specs.Scene.{Scene};
ghost use Rattle.spec_moo.specs.Pending.{Pending};
ghost use Rattle.spec_moo.specs.Effects.Calls.{verb_effect, above_definer};
ghost use Rattle.rules.specs.Lines.{AreAgreeing};
ghost use Rattle.view.specs.Law.{Lasts, StaysSound, Tells};
ghost use Rattle.rules.specs.Calling.{call_effect, verb_error, verb_found};

use crate::inherit::verb::{FoundVerb, find_verb};
use moo_value::error::MooError;
use moo_value::value::{Shown, Value};
use std::alloc::AllocError;
use view::law::View;
use view::readers::read_header;

/// The verb that a call of a word on an object runs: `E_TYPE` where they are no object and no text, `E_INVIND` where the object is
/// not there, `E_VERBNF` where no verb of it may be called so.
pub fn called_verb<V: View>(
    view: &mut V,
    object: &Value,
    word: &Value,
) -> Result<Result<FoundVerb, MooError>, AllocError>
    requires home { V.holds view.old (V.home view.old) }
    requires well_formed { AreAgreeing V.holds V.now view.old }
    ensures lasts { Lasts V.holds V.home V.anchor view.old view.new result }
    ensures left { IfOk result (λ f. Tells V.holds V.now view.old view.new (λ w. (s : Scene) (p : Pending) (xs : Data) → s.world ≡ w →
        verb_effect s p object.now word.now xs ≡ call_effect s p object.now word.now xs f)) }
    ensures sound { OnOk result (StaysSound V.home V.now view.old view.new) }
{
    match (object.shown(), word.shown()) {
        (Shown::Object(object), Shown::Text(word)) => found_on(view, object, word),
        _ => Ok(Err(MooError::TypeMismatch)),
    }
}

// A verb that is found shows that its object is there.
fn found_on<V: View>(
    view: &mut V,
    object: i32,
    word: &str,
) -> Result<Result<FoundVerb, MooError>, AllocError>
    requires home { V.holds view.old (V.home view.old) }
    requires well_formed { AreAgreeing V.holds V.now view.old }
    ensures lasts { Lasts V.holds V.home V.anchor view.old view.new result }
    ensures left { IfOk result (λ f. Tells V.holds V.now view.old view.new (λ w. verb_found w object word.now (object_at w object) ≡ f)) }
{
    let verb = find_verb(view, object, word)?;
    match verb {
        Some(found) => Ok(Ok(found)),
        None => {
            let error = missing(view, object)?;
            Ok(Err(error))
        }
    }
}

// Why no verb is found: the object is not there, or has no such verb.
fn missing<V: View>(view: &mut V, object: i32) -> Result<MooError, AllocError>
    ensures lasts { Lasts V.holds V.home V.anchor view.old view.new result }
    ensures left { IfOk result (λ e. Tells V.holds V.now view.old view.new (λ w. verb_error (object_at w object) ≡ e)) }
{
    match read_header(view, object)? {
        Some(_) => Ok(MooError::VerbNotFound),
        None => Ok(MooError::InvalidIndirection),
    }
}

/// The verb that `pass` runs: that of the running verb's name, sought from the parent of its definer. None where the definer is
/// not there.
pub fn passed_verb<V: View>(
    view: &mut V,
    definer: i32,
    word: &str,
) -> Result<Option<FoundVerb>, AllocError>
    requires home { V.holds view.old (V.home view.old) }
    requires well_formed { AreAgreeing V.holds V.now view.old }
    ensures lasts { Lasts V.holds V.home V.anchor view.old view.new result }
    ensures left { IfOk result (λ f. Tells V.holds V.now view.old view.new (λ w. above_definer w word.now (object_at w definer) ≡ f)) }
    ensures sound { OnOk result (StaysSound V.home V.now view.old view.new) }
{
    let header = read_header(view, definer)?;
    match header {
        Some(header) => find_verb(view, header.parent, word),
        None => Ok(None),
    }
}
