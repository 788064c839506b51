//! Code that is asked for (Programmer's Manual, `verb_code()`).
ghost use Rattle.std.specs.Prelude.{◌≡◌, [], ◌∷◌, IfOk};
ghost use Rattle.spec_value.specs.Datum.{object as object_of};
ghost use Rattle.spec_program.specs.Spelling.{canonical_lines};
ghost use Rattle.spec_moo.specs.Natives.Rows.{list_value};
ghost use Rattle.spec_moo.specs.Natives.Properties.{as_texts};
ghost use Rattle.spec_moo.specs.Natives.Verbs.{verb_code_row};
ghost use Rattle.moo_value.specs.Answers.{answer_of};
ghost use Rattle.view.specs.Law.{Lasts, Tells};
ghost use Rattle.builtins_view.specs.Said.{Says};

use builtins_view::builtins_world::own_verb::own_verb;
use moo_value::answer::Answer;
use moo_value::error::MooError;
use moo_value::text::Text;
use moo_value::value::Value;
use rules::permissions::act::Act;
use rules::permissions::may::may;
use std::alloc::{AllocError, Global};
use view::law::View;
use view::readers::read_verbs;
use view::verb::Verb;

/// `verb_code`: the canonical lines of a verb that is told by a word or by its place from 1. `E_INVARG` where the object is not
/// there, `E_VERBNF` where it has no such verb, `E_PERM` where the programmer may not read it.
pub fn verb_code<V: View>(
    alloc: Global,
    view: &mut V,
    programmer: i32,
    object: i32,
    which: &Value,
) -> Result<Answer, AllocError>
    requires home { V.holds view.old (V.home view.old) }
    ensures lasts { Lasts V.holds V.home V.anchor view.old view.new result }
    ensures left { IfOk result (λ a. Tells V.holds V.now view.old view.new
        (λ w. Says (λ s c. verb_code_row s c (object_of object ∷ which.now ∷ [])) w programmer (answer_of a))) }
{
    let Some(verbs) = read_verbs(view, object)? else {
        return Ok(Err(MooError::InvalidArgument));
    };
    let Some((place, verb)) = own_verb(verbs.as_slice(), which) else {
        return Ok(Err(MooError::VerbNotFound));
    };
    if !may(view, programmer, &Act::ReadVerb(object, place))? {
        return Ok(Err(MooError::PermissionDenied));
    }
    Ok(Ok(code(alloc, verb)?))
}

fn code(alloc: Global, verb: &Verb) -> Result<Value, AllocError>
    ensures { IfOk result (λ v. v ≡ list_value (as_texts (canonical_lines verb.now.program))) }
{
    let lines = verb.program.lines(alloc)?;
    let value = lines_value(alloc, &lines)?;
    Ok(value)
}

// A list of lines.
fn lines_value(alloc: Global, lines: &[Text]) -> Result<Value, AllocError>
    ensures { IfOk result (λ v. v ≡ list_value (as_texts lines.now)) }
{
    let mut items = Vec::with_capacity(alloc, lines.len())?;
    for line in lines {
        items.push(Value::text(line.clone()?))?;
    }
    Value::list(items)
}
