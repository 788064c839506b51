//! Verbs that built-in functions call.
ghost use Rattle.std.specs.Prelude.{◌≡◌, IfOk};
ghost use Rattle.spec_value.specs.Datum.{of_list};
ghost use Rattle.moo_task.specs.Frames.{native_of};
ghost use Rattle.rules.specs.Lines.{AreAgreeing};
ghost use Rattle.view.specs.Law.{Lasts, Tells};
ghost use Rattle.builtins.specs.Led.{MayBegin};

use moo_program::program::Program;
use moo_task::effect::NativeEffect;
use moo_task::moo_machine::call::Call;
use moo_task::native::Native;
use moo_value::text::Text;
use moo_value::value::Value;
use rules::inherit::verb::{FoundVerb, find_verb};
use std::alloc::AllocError;
use step_deeds::calling::callee;
use view::law::View;

/// The call of the verb that a word names on an object, if there is one; the built-in function then waits for its value.
pub fn begins<V: View>(
    view: &mut V,
    call: &Call,
    native: Native,
    object: i32,
    word: Text,
    arguments: Vec<Value>,
) -> Result<Option<NativeEffect>, AllocError>
    requires home { V.holds view.old (V.home view.old) }
    requires well_formed { AreAgreeing V.holds V.now view.old }
    ensures lasts { Lasts V.holds V.home V.anchor view.old view.new result }
    ensures left { IfOk result (λ m. Tells V.holds V.now view.old view.new (λ w. MayBegin (native_of native) object word (of_list arguments.items) w call.now m)) }
{
    let found = find_verb(view, object, word.as_str())?;
    let Some(found) = found else {
        return Ok(None);
    };
    let program = program_of(&found)?;
    let call = callee(call, object, word, &found);
    Ok(Some(NativeEffect::Begins {
        native,
        call,
        program,
        arguments,
    }))
}

// The program of a verb that was found.
fn program_of(found: &FoundVerb) -> Result<Program, AllocError>
    ensures { IfOk result (λ p. p ≡ (found.now.verb).program) }
{
    let verb = found.verb();
    verb.program.whole()
}
