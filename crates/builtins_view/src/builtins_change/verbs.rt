//! Verbs that are changed (Programmer's Manual, "Operations Involving Verbs").
ghost use Rattle.std.specs.Prelude.{◌≡◌, ◌&&◌, [], ◌∷◌, not, is_some, option_map, Some, codes, IfOk, OnOk};
ghost use Rattle.spec_value.specs.Datum.{object as object_of};
ghost use Rattle.spec_world.specs.World.{object_at};
ghost use Rattle.spec_world.specs.Permissions.{in_place};
ghost use Rattle.spec_world.specs.Questions.{verbs_at};
ghost use Rattle.spec_world.specs.VerbNames.{names_in};
ghost use Rattle.spec_moo.specs.Natives.Properties.{are_bits as are_bits_of};
ghost use Rattle.spec_moo.specs.Natives.Verbs.{set_verb_info_row, set_verb_args_row, add_verb_row, delete_verb_row, is_none_named};
ghost use Rattle.moo_value.specs.Answers.{answer_of};
ghost use Rattle.view.specs.Law.{Goes, Lasts, Tells};
ghost use Rattle.rules.specs.Lines.{AreAgreeing};
ghost use Rattle.builtins_view.specs.Said.{Does};
ghost use Rattle.builtins_view.specs.BuiltinsChangeLater.{verb_given, specified, added, added_owned};
ghost use Rattle.builtins_view.specs.BuiltinsChangeListed.{info_given, words_given};
ghost use Rattle.builtins_view.specs.Specifiers.{specifier_of};

use crate::builtins_change::asked::is_there;
use crate::builtins_change::bits::are_bits;
use crate::builtins_change::made::{Info, has_names, new_verb};
use crate::builtins_change::put::{lose, put_info, put_new, put_specifier};
use crate::builtins_change::specifier::{Specifier, Words, read_specifier};
use crate::builtins_world::own_verb::own_verb;
use moo_value::answer::Answer;
use moo_value::error::MooError;
use moo_value::value::Value;
use rules::permissions::act::Act;
use rules::permissions::may::may;
use std::alloc::{AllocError, Global};
use view::law::View;
use view::readers::read_verbs;
use view::verb::Verb;

/// `set_verb_info`. `E_INVARG` where the object is not there, `E_VERBNF` where it has no such verb, `E_PERM` where the programmer
/// may not write it or not give it to that owner, and `E_INVARG` for other bits than r, w, x and d, for no name at all and for an
/// owner that is not there.
pub fn set_verb_info<V: View>(
    alloc: Global,
    view: &mut V,
    programmer: i32,
    object: i32,
    which: &Value,
    info: &Info,
) -> Result<Answer, AllocError>
    requires home { V.holds view.old (V.home view.old) }
    ensures lasts { Lasts V.holds V.home V.anchor view.old view.new result }
    ensures left { IfOk result (λ a. Goes V.holds V.now view.old view.new
        (λ before after. Does (λ s c. set_verb_info_row s c (object_of object ∷ which.now ∷ info_given info.now ∷ []))
        before after programmer (answer_of a))) }
    ensures well_formed { AreAgreeing V.holds V.now view.old → OnOk result (AreAgreeing V.holds V.now view.new) }
{
    let Some(verbs) = read_verbs(view, object)? else {
        return Ok(Err(MooError::InvalidArgument));
    };
    let Some((place, verb)) = own_verb(verbs.as_slice(), which) else {
        return Ok(Err(MooError::VerbNotFound));
    };
    let allowed = may(view, programmer, &Act::WriteVerb(object, place))?;
    if !allowed {
        return Ok(Err(MooError::PermissionDenied));
    }
    let answer = give_info(
        alloc,
        view,
        programmer,
        object,
        verbs.as_slice(),
        place,
        verb,
        info,
    )?;
    Ok(answer)
}

// A verb that may be written has another owner, other bits and names.
fn give_info<V: View>(
    alloc: Global,
    view: &mut V,
    programmer: i32,
    object: i32,
    verbs: &[Verb],
    place: usize,
    verb: &Verb,
    info: &Info,
) -> Result<Answer, AllocError>
    requires home { V.holds view.old (V.home view.old) }
    requires there { in_place verbs.now place ≡ Some verb.now }
    ensures lasts { Lasts V.holds V.home V.anchor view.old view.new result }
    ensures left { IfOk result (λ a. Goes V.holds V.now view.old view.new (λ before after. verbs_at before object ≡ Some verbs.now →
        Does (verb_given object place verb.now info.now) before after programmer (answer_of a))) }
{
    if !may(
        view,
        programmer,
        &Act::ChangeOwner(owner_of(verb), info.owner),
    )? {
        return Ok(Err(MooError::PermissionDenied));
    }
    if !fits(view, info)? {
        return Ok(Err(MooError::InvalidArgument));
    }
    put_info(alloc, view, object, verbs, place, verb, info)?;
    Ok(Ok(Value::integer(0)))
}

/// `set_verb_args`. `E_INVARG` where the object is not there, `E_VERBNF` where it has no such verb, `E_PERM` where the programmer
/// may not write it, and `E_INVARG` for words that tell no specifier.
pub fn set_verb_args<V: View>(
    alloc: Global,
    view: &mut V,
    programmer: i32,
    object: i32,
    which: &Value,
    words: &Words,
) -> Result<Answer, AllocError>
    requires home { V.holds view.old (V.home view.old) }
    ensures lasts { Lasts V.holds V.home V.anchor view.old view.new result }
    ensures left { IfOk result (λ a. Goes V.holds V.now view.old view.new
        (λ before after. Does (λ s c. set_verb_args_row s c (object_of object ∷ which.now ∷ words_given words.now ∷ []))
        before after programmer (answer_of a))) }
    ensures well_formed { AreAgreeing V.holds V.now view.old → OnOk result (AreAgreeing V.holds V.now view.new) }
{
    let specifier = read_specifier(words);
    specify(alloc, view, programmer, object, which, specifier)
}

// A verb has another specifier, if there is one.
fn specify<V: View>(
    alloc: Global,
    view: &mut V,
    programmer: i32,
    object: i32,
    which: &Value,
    specifier: Option<Specifier>,
) -> Result<Answer, AllocError>
    requires home { V.holds view.old (V.home view.old) }
    ensures lasts { Lasts V.holds V.home V.anchor view.old view.new result }
    ensures left { IfOk result (λ a. Goes V.holds V.now view.old view.new
        (λ before after. Does (specified (option_map specifier_of specifier) object which.now) before after programmer (answer_of a))) }
{
    let Some(verbs) = read_verbs(view, object)? else {
        return Ok(Err(MooError::InvalidArgument));
    };
    let Some((place, verb)) = own_verb(verbs.as_slice(), which) else {
        return Ok(Err(MooError::VerbNotFound));
    };
    if !may(view, programmer, &Act::WriteVerb(object, place))? {
        return Ok(Err(MooError::PermissionDenied));
    }
    let Some(specifier) = specifier else {
        return Ok(Err(MooError::InvalidArgument));
    };
    put_specifier(
        alloc,
        view,
        object,
        verbs.as_slice(),
        place,
        verb,
        specifier,
    )?;
    Ok(Ok(Value::integer(0)))
}

/// `add_verb`. `E_INVARG` where the object is not there, `E_PERM` where the programmer may not add to it or not give to that
/// owner, and `E_INVARG` for other bits than r, w, x and d, for no name at all, for an owner that is not there and for words that
/// tell no specifier.
pub fn add_verb<V: View>(
    alloc: Global,
    view: &mut V,
    programmer: i32,
    object: i32,
    info: &Info,
    words: &Words,
) -> Result<Answer, AllocError>
    requires home { V.holds view.old (V.home view.old) }
    ensures lasts { Lasts V.holds V.home V.anchor view.old view.new result }
    ensures left { IfOk result (λ a. Goes V.holds V.now view.old view.new
        (λ before after. Does (λ s c. add_verb_row s c (object_of object ∷ info_given info.now ∷ words_given words.now ∷ []))
        before after programmer (answer_of a))) }
    ensures well_formed { AreAgreeing V.holds V.now view.old → OnOk result (AreAgreeing V.holds V.now view.new) }
{
    let specifier = read_specifier(words);
    add(alloc, view, programmer, object, info, specifier)
}

// An object has one more verb, if there is a specifier.
fn add<V: View>(
    alloc: Global,
    view: &mut V,
    programmer: i32,
    object: i32,
    info: &Info,
    specifier: Option<Specifier>,
) -> Result<Answer, AllocError>
    requires home { V.holds view.old (V.home view.old) }
    ensures lasts { Lasts V.holds V.home V.anchor view.old view.new result }
    ensures left { IfOk result (λ a. Goes V.holds V.now view.old view.new
        (λ before after. Does (added (option_map specifier_of specifier) object info.now) before after programmer (answer_of a))) }
{
    let Some(verbs) = read_verbs(view, object)? else {
        return Ok(Err(MooError::InvalidArgument));
    };
    let allowed = may(view, programmer, &Act::ChangeMembers(object))?;
    if !allowed {
        return Ok(Err(MooError::PermissionDenied));
    }
    let answer = add_owned(
        alloc,
        view,
        programmer,
        object,
        verbs.as_slice(),
        info,
        specifier,
    )?;
    Ok(answer)
}

// An object that may have more verbs has one more.
fn add_owned<V: View>(
    alloc: Global,
    view: &mut V,
    programmer: i32,
    object: i32,
    verbs: &[Verb],
    info: &Info,
    specifier: Option<Specifier>,
) -> Result<Answer, AllocError>
    requires home { V.holds view.old (V.home view.old) }
    ensures lasts { Lasts V.holds V.home V.anchor view.old view.new result }
    ensures left { IfOk result (λ a. Goes V.holds V.now view.old view.new (λ before after. verbs_at before object ≡ Some verbs.now →
        Does (added_owned (option_map specifier_of specifier) object info.now) before after programmer (answer_of a))) }
{
    if !may(view, programmer, &Act::ChangeOwner(programmer, info.owner))? {
        return Ok(Err(MooError::PermissionDenied));
    }
    if !fits(view, info)? {
        return Ok(Err(MooError::InvalidArgument));
    }
    let Some(specifier) = specifier else {
        return Ok(Err(MooError::InvalidArgument));
    };
    let verb = new_verb(alloc, info, specifier)?;
    put_new(alloc, view, object, verbs, verb)?;
    Ok(Ok(Value::integer(0)))
}

/// `delete_verb`. `E_INVARG` where the object is not there, `E_VERBNF` where it has no such verb, `E_PERM` where the programmer
/// may not take from it.
pub fn delete_verb<V: View>(
    alloc: Global,
    view: &mut V,
    programmer: i32,
    object: i32,
    which: &Value,
) -> Result<Answer, AllocError>
    requires home { V.holds view.old (V.home view.old) }
    ensures lasts { Lasts V.holds V.home V.anchor view.old view.new result }
    ensures left { IfOk result (λ a. Goes V.holds V.now view.old view.new
        (λ before after. Does (λ s c. delete_verb_row s c (object_of object ∷ which.now ∷ []))
        before after programmer (answer_of a))) }
    ensures well_formed { AreAgreeing V.holds V.now view.old → OnOk result (AreAgreeing V.holds V.now view.new) }
{
    delete(alloc, view, programmer, object, which)
}

#[tactic(auto, using(crate::proofs::BuiltinsChangeChanges::within))]
fn delete<V: View>(
    alloc: Global,
    view: &mut V,
    programmer: i32,
    object: i32,
    which: &Value,
) -> Result<Answer, AllocError>
    requires home { V.holds view.old (V.home view.old) }
    ensures lasts { Lasts V.holds V.home V.anchor view.old view.new result }
    ensures left { IfOk result (λ a. Goes V.holds V.now view.old view.new
        (λ before after. Does (λ s c. delete_verb_row s c (object_of object ∷ which.now ∷ []))
        before after programmer (answer_of a))) }
{
    let Some(verbs) = read_verbs(view, object)? else {
        return Ok(Err(MooError::InvalidArgument));
    };
    let Some((place, _)) = own_verb(verbs.as_slice(), which) else {
        return Ok(Err(MooError::VerbNotFound));
    };
    if !may(view, programmer, &Act::ChangeMembers(object))? {
        return Ok(Err(MooError::PermissionDenied));
    }
    lose(alloc, view, object, verbs.as_slice(), place)?;
    Ok(Ok(Value::integer(0)))
}

fn owner_of(verb: &Verb) -> i32
    ensures { result ≡ verb.now.owner }
{
    verb.owner
}

// Whether the owner is there, the bits are those of verbs, and there is a name.
fn fits<V: View>(view: &mut V, info: &Info) -> Result<bool, AllocError>
    ensures lasts { Lasts V.holds V.home V.anchor view.old view.new result }
    ensures left { IfOk result (λ b. Tells V.holds V.now view.old view.new (λ w.
        (is_some (object_at w info.now.owner) && are_bits_of (codes "rwxd") info.now.bits && not (is_none_named (names_in info.now.names))) ≡ b)) }
{
    if !is_there(view, info.owner)? {
        return Ok(false);
    }
    Ok(is_well_told(info))
}

fn is_well_told(info: &Info) -> bool
    ensures { result ≡ (are_bits_of (codes "rwxd") info.now.bits && not (is_none_named (names_in info.now.names))) }
{
    are_bits(b"rwxd", info.bits.as_str().as_bytes()) && has_names(info.names.as_str().as_bytes())
}
