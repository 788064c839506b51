//! What is known of verbs (Programmer's Manual, "Operations on Verbs").
ghost use Rattle.std.specs.Prelude.{◌≡◌, [], ◌∷◌, IfOk};
ghost use Rattle.spec_value.specs.Datum.{object as object_of};
ghost use Rattle.spec_moo.specs.Natives.Verbs.{verbs_row, verb_info_row, verb_args_row, verb_names, verb_bits as verb_bits_of};
ghost use Rattle.spec_moo.specs.Natives.Properties.{as_texts};
ghost use Rattle.spec_moo.specs.Natives.Rows.{list_value};
ghost use Rattle.moo_value.specs.Answers.{answer_of};
ghost use Rattle.view.specs.Law.{Lasts, Tells};
ghost use Rattle.builtins_view.specs.Said.{Says};
ghost use Rattle.builtins_view.specs.Verbs.{info_value, specifier_value};

use crate::builtins_world::own_verb::own_verb;
use crate::builtins_world::specifier::{object_part_text, preposition_text};
use moo_value::answer::Answer;
use moo_value::error::MooError;
use moo_value::text::Text;
use moo_value::value::Value;
use rules::permissions::act::Act;
use rules::permissions::may::may;
use std::alloc::{AllocError, Global};
use view::law::View;
use view::readers::read_verbs;
use view::verb::Verb;

/// `verbs`: the names of an object's own verbs, as they were given. `E_INVARG` where it is not there, `E_PERM` where the programmer
/// may not list them.
pub fn verbs<V: View>(
    alloc: Global,
    view: &mut V,
    programmer: i32,
    object: i32,
) -> Result<Answer, AllocError>
    requires home { V.holds view.old (V.home view.old) }
    ensures lasts { Lasts V.holds V.home V.anchor view.old view.new result }
    ensures left { IfOk result (λ a. Tells V.holds V.now view.old view.new
        (λ w. Says (λ s c. verbs_row s c (object_of object ∷ [])) w programmer (answer_of a))) }
{
    let Some(verbs) = read_verbs(view, object)? else {
        return Ok(Err(MooError::InvalidArgument));
    };
    if !may(view, programmer, &Act::ListMembers(object))? {
        return Ok(Err(MooError::PermissionDenied));
    }
    Ok(Ok(names_value(alloc, verbs.as_slice())?))
}

// The names of verbs.
fn names_value(alloc: Global, verbs: &[Verb]) -> Result<Value, AllocError>
    ensures { IfOk result (λ v. v ≡ list_value (as_texts (verb_names verbs.now))) }
{
    let mut items = Vec::with_capacity(alloc, verbs.len())?;
    for verb in verbs {
        items.push(Value::text(verb.names.clone()?))?;
    }
    Value::list(items)
}

/// `verb_info`: `{owner, bits, names}` of a verb that is told by a word or by its place from 1. `E_INVARG` where the object is not
/// there, `E_VERBNF` where it has no such verb, `E_PERM` where the programmer may not read it.
pub fn verb_info<V: View>(
    alloc: Global,
    view: &mut V,
    programmer: i32,
    object: i32,
    which: &Value,
) -> Result<Answer, AllocError>
    requires home { V.holds view.old (V.home view.old) }
    ensures lasts { Lasts V.holds V.home V.anchor view.old view.new result }
    ensures left { IfOk result (λ a. Tells V.holds V.now view.old view.new
        (λ w. Says (λ s c. verb_info_row s c (object_of object ∷ which.now ∷ [])) w programmer (answer_of a))) }
{
    let Some(verbs) = read_verbs(view, object)? else {
        return Ok(Err(MooError::InvalidArgument));
    };
    let Some((place, verb)) = own_verb(verbs.as_slice(), which) else {
        return Ok(Err(MooError::VerbNotFound));
    };
    if !may(view, programmer, &Act::ReadVerb(object, place))? {
        return Ok(Err(MooError::PermissionDenied));
    }
    Ok(Ok(info(alloc, verb)?))
}

fn info(alloc: Global, verb: &Verb) -> Result<Value, AllocError>
    ensures { IfOk result (λ v. v ≡ info_value verb.now) }
{
    let bits = verb_bits(alloc, verb)?;
    let mut items = Vec::with_capacity(alloc, 3)?;
    items.push(Value::object(verb.owner))?;
    items.push(Value::text(bits))?;
    items.push(Value::text(verb.names.clone()?))?;
    Value::list(items)
}

/// `verb_args`: `{direct object, preposition, indirect object}` of a verb, with the same errors.
pub fn verb_args<V: View>(
    alloc: Global,
    view: &mut V,
    programmer: i32,
    object: i32,
    which: &Value,
) -> Result<Answer, AllocError>
    requires home { V.holds view.old (V.home view.old) }
    ensures lasts { Lasts V.holds V.home V.anchor view.old view.new result }
    ensures left { IfOk result (λ a. Tells V.holds V.now view.old view.new
        (λ w. Says (λ s c. verb_args_row s c (object_of object ∷ which.now ∷ [])) w programmer (answer_of a))) }
{
    let Some(verbs) = read_verbs(view, object)? else {
        return Ok(Err(MooError::InvalidArgument));
    };
    let Some((place, verb)) = own_verb(verbs.as_slice(), which) else {
        return Ok(Err(MooError::VerbNotFound));
    };
    if !may(view, programmer, &Act::ReadVerb(object, place))? {
        return Ok(Err(MooError::PermissionDenied));
    }
    Ok(Ok(specifier(alloc, verb)?))
}

fn specifier(alloc: Global, verb: &Verb) -> Result<Value, AllocError>
    ensures { IfOk result (λ v. v ≡ specifier_value verb.now) }
{
    let direct = Text::from_str(alloc, object_part_text(verb.direct))?;
    let preposition = Text::from_str(alloc, preposition_text(verb.preposition))?;
    let indirect = Text::from_str(alloc, object_part_text(verb.indirect))?;
    let mut items = Vec::with_capacity(alloc, 3)?;
    items.push(Value::text(direct))?;
    items.push(Value::text(preposition))?;
    items.push(Value::text(indirect))?;
    Value::list(items)
}

// The bits r, w, x and d.
fn verb_bits(alloc: Global, verb: &Verb) -> Result<Text, AllocError>
    ensures { IfOk result (λ t. t ≡ verb_bits_of verb.now) }
{
    let bits = match (verb.readable, verb.writable, verb.callable, verb.debug) {
        (false, false, false, false) => "",
        (false, false, false, true) => "d",
        (false, false, true, false) => "x",
        (false, false, true, true) => "xd",
        (false, true, false, false) => "w",
        (false, true, false, true) => "wd",
        (false, true, true, false) => "wx",
        (false, true, true, true) => "wxd",
        (true, false, false, false) => "r",
        (true, false, false, true) => "rd",
        (true, false, true, false) => "rx",
        (true, false, true, true) => "rxd",
        (true, true, false, false) => "rw",
        (true, true, false, true) => "rwd",
        (true, true, true, false) => "rwx",
        (true, true, true, true) => "rwxd",
    };
    Text::from_str(alloc, bits)
}
