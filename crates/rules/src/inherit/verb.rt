//! Verbs of objects and of their ancestors.
ghost use Rattle.std.specs.Prelude.{◌≡◌, ◌<◌, ℤ, length, Some, IfOk, IfSome, option_map};
ghost use Rattle.spec_world.specs.World.{World, object_at};
ghost use Rattle.spec_world.specs.Inherit.{ancestors};
ghost use Rattle.spec_world.specs.VerbsSought.{find_verb as find_verb_of, find_command_verb as find_command_verb_of, first_on, first_passing, own_first, wants as wants_of, object_fits as object_fits_of, preposition_fits as preposition_fits_of};
ghost use Rattle.view.specs.Law.{Lasts, Tells};
ghost use Rattle.view.specs.Kin.{IsCalledAt, IsCalledVerb};
ghost use Rattle.view.specs.Parts.{object_part_of, preposition_part_of};
ghost use Rattle.rules.specs.Lines.{AreAgreeing};
ghost use Rattle.rules.specs.Sought.{parts_of, passes as passes_of, first_among as first_among_of, placed};

use crate::inherit::line::{not_negative, parent};
use std::alloc::AllocError;
use std::marker::Model;
use view::law::View;
use view::readers::read_verbs;
use view::verb::{ObjectPart, PrepositionPart, Verb, Verbs};
use view::verb_names::matches;

/// A verb that was found, with the object that it stands on. It is shared with its owner, not copied.
#[derive(Drop)]
pub struct FoundVerb {
    definer: i32,
    verbs: Verbs,
    place: usize,
}

impl Model for FoundVerb {
    ghost use Rattle.std.specs.Prelude.{◌<◌, length};
    ghost use Rattle.spec_world.specs.VerbsSought.{Sought};
    ghost use Rattle.rules.specs.Sought.{placed, sought_code};

    ghost Value = { Sought };

    ghost coded = { sought_code };

    ghost view = { λ a. record { definer = a.definer; verb = placed a.verbs a.place } };

    ghost invariant = { λ a. a.place < length a.verbs };
}

impl FoundVerb {
    /// The object that the verb stands on.
    pub fn definer(&self) -> i32
        ensures { result ≡ self.now.definer }
    {
        self.definer
    }

    /// The verb.
    pub fn verb(&self) -> &Verb
        ensures { result.now ≡ self.now.verb }
    {
        &self.verbs.as_slice()[self.place]
    }
}

/// What a command names besides its verb: its objects, -1 where there is none, and the set of its preposition.
#[derive(Clone, Copy)]
pub struct CommandParts {
    pub direct: i32,
    pub preposition: Option<usize>,
    pub indirect: i32,
}

// What a verb is sought for: a call from code, or a command for which an object is searched.
#[derive(Clone, Copy)]
enum Purpose {
    Call,
    Command(i32, CommandParts),
}

/// The verb that a word names on an object when code calls it: the first one along the ancestors that may be called.
pub fn find_verb<V: View>(
    view: &mut V,
    object: i32,
    word: &str,
) -> Result<Option<FoundVerb>, AllocError>
    requires home { V.holds view.old (V.home view.old) }
    requires well_formed { AreAgreeing V.holds V.now view.old }
    ensures lasts { Lasts V.holds V.home V.anchor view.old view.new result }
    ensures left { IfOk result (λ f. Tells V.holds V.now view.old view.new (λ w. find_verb_of w object word.now ≡ f)) }
{
    find(view, object, word, &Purpose::Call)
}

/// A verb that is lent.
#[derive(Clone, Copy)]
pub struct LentVerb<'v> {
    /// The object that it stands on.
    pub definer: i32,
    /// Its place among the verbs there.
    pub place: usize,
    pub verb: &'v Verb,
}

/// The verb that a word names on an object when code calls it, lent, if all objects up to the one that it stands on are at hand.
#[inline(always)]
pub fn find_lent<'v, V: View>(view: &'v V, object: i32, word: &str) -> Option<LentVerb<'v>>
    requires home { V.holds view.now (V.home view.now) }
    requires well_formed { AreAgreeing V.holds V.now view.now }
    ensures { IfSome result (λ f. (w : World) → V.holds view.now w → IsCalledVerb (V.now view.now w) object word.now f.definer f.verb.now
        × IsCalledAt (V.now view.now w) object word.now f.definer f.place) }
{
    let mut next = Some(object);
    while let Some(at) = next {
        let (parent, verbs) = view.kin_at_hand(at)?;
        let place = first_place(verbs, word, &Purpose::Call);
        if let Some(place) = place {
            return Some(LentVerb {
                definer: at,
                place,
                verb: &verbs.as_slice()[place],
            });
        }
        next = not_negative(parent);
    }
    None
}

/// The verb that a word names on an object in a command: the first one along the ancestors that fits what the command names.
pub fn find_command_verb<V: View>(
    view: &mut V,
    object: i32,
    word: &str,
    parts: &CommandParts,
) -> Result<Option<FoundVerb>, AllocError>
    requires home { V.holds view.old (V.home view.old) }
    requires well_formed { AreAgreeing V.holds V.now view.old }
    ensures lasts { Lasts V.holds V.home V.anchor view.old view.new result }
    ensures left { IfOk result (λ f. Tells V.holds V.now view.old view.new (λ w. find_command_verb_of w object word.now (parts_of parts.now) ≡ f)) }
{
    find(view, object, word, &Purpose::Command(object, *parts))
}

// The first verb along the ancestors that serves a purpose.
fn find<V: View>(
    view: &mut V,
    object: i32,
    word: &str,
    purpose: &Purpose,
) -> Result<Option<FoundVerb>, AllocError>
    requires home { V.holds view.old (V.home view.old) }
    requires well_formed { AreAgreeing V.holds V.now view.old }
    ensures lasts { Lasts V.holds V.home V.anchor view.old view.new result }
    ensures left { IfOk result (λ f. Tells V.holds V.now view.old view.new (λ w. first_on w (passes_of purpose.now word.now) (ancestors w object) ≡ f)) }
{
    let mut next = Some(object);
    while let Some(at) = next {
        if let Some(found) = own_verb(view, at, word, purpose)? {
            return Ok(Some(found));
        }
        next = parent(view, at)?;
    }
    Ok(None)
}

// The first of an object's own verbs that serves a purpose.
#[inline(always)]
fn own_verb<V: View>(
    view: &mut V,
    object: i32,
    word: &str,
    purpose: &Purpose,
) -> Result<Option<FoundVerb>, AllocError>
    ensures lasts { Lasts V.holds V.home V.anchor view.old view.new result }
    ensures left { IfOk result (λ f. Tells V.holds V.now view.old view.new (λ w. own_first object (passes_of purpose.now word.now) (object_at w object) ≡ f)) }
{
    let verbs = read_verbs(view, object)?;
    Ok(first_among(object, verbs, word, purpose))
}

// The first of an object's verbs that serves a purpose.
#[inline(always)]
fn first_among(
    definer: i32,
    verbs: Option<Verbs>,
    word: &str,
    purpose: &Purpose,
) -> Option<FoundVerb>
    ensures { result ≡ first_among_of definer (passes_of purpose.now word.now) verbs }
{
    let verbs = verbs?;
    let place = first_place(&verbs, word, purpose)?;
    Some(FoundVerb {
        definer,
        verbs,
        place,
    })
}

// Where the first of several verbs stands that serves a purpose.
#[inline(always)]
#[tactic(auto, using(crate::proofs::Passing::passed_at))]
fn first_place(verbs: &Verbs, word: &str, purpose: &Purpose) -> Option<usize>
    ensures inside { IfSome result (λ i. i < length verbs.now) }
    ensures found { (o : ℤ) → first_passing o (passes_of purpose.now word.now) verbs.now ≡ option_map (λ i. record { definer = o; verb = placed verbs.now i }) result }
{
    let mut from = 0;
    while let Some(place) = verbs.next_named(from, word.as_bytes()) {
        if passes(&verbs.as_slice()[place], word, purpose) {
            return Some(place);
        }
        from = place + 1;
    }
    None
}

fn passes(verb: &Verb, word: &str, purpose: &Purpose) -> bool
    ensures { result ≡ passes_of purpose.now word.now verb.now }
{
    match purpose {
        Purpose::Call => verb.callable && matches(verb.names.as_str(), word),
        Purpose::Command(searched, parts) => {
            matches(verb.names.as_str(), word) && wants(verb, *searched, parts)
        }
    }
}

// Whether what a command names is what a verb wants.
fn wants(verb: &Verb, searched: i32, parts: &CommandParts) -> bool
    ensures { result ≡ wants_of verb.now searched (parts_of parts.now) }
{
    object_fits(verb.direct, searched, parts.direct)
        && preposition_fits(verb.preposition, parts.preposition)
        && object_fits(verb.indirect, searched, parts.indirect)
}

fn object_fits(part: ObjectPart, searched: i32, object: i32) -> bool
    ensures { result ≡ object_fits_of (object_part_of part) searched object }
{
    match part {
        ObjectPart::Absent => object == -1,
        ObjectPart::Any => true,
        ObjectPart::This => object == searched,
    }
}

fn preposition_fits(part: PrepositionPart, preposition: Option<usize>) -> bool
    ensures { result ≡ preposition_fits_of (preposition_part_of part) preposition }
{
    match (part, preposition) {
        (PrepositionPart::Any, _) | (PrepositionPart::Absent, None) => true,
        (PrepositionPart::Set(wanted), Some(set)) => usize::from(wanted) == set,
        _ => false,
    }
}
