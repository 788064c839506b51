//! `.program`: for which verb lines are collected.
ghost use Rattle.std.specs.Prelude.{◌≡◌, ℤ, Some, IfOk};
ghost use Rattle.spec_world.specs.World.{object_at};
ghost use Rattle.spec_world.specs.CommandLines.{program_verb as programs_verb};
ghost use Rattle.spec_world.specs.Permissions.{program_verb};
ghost use Rattle.spec_moo.specs.Scene.{Scene};
ghost use Rattle.spec_moo.specs.Natives.Verbs.{place_of_word};
ghost use Rattle.spec_moo.specs.Steps.Programming.{requested, opens, programmable as programmable_of, programmable_at};
ghost use Rattle.rules.specs.Acts.{act_of};
ghost use Rattle.rules.specs.Lines.{AreAgreeing};
ghost use Rattle.view.specs.Law.{Lasts, Tells};
ghost use Rattle.player_commands.specs.Meanings.{request_of};
ghost use Rattle.player_commands.specs.Openings.{opened, begun, place_among};

use crate::command_parser::request::Request;
use crate::object_match::naming::name_object;
use moo_value::text::Text;
use rules::permissions::act::Act;
use rules::permissions::may::may;
use std::alloc::{AllocError, Global};
use view::law::View;
use view::readers::read_verbs;
use view::verb::{Verb, Verbs};
use view::verb_names::matches;

/// What comes of a `.program` line.
#[derive(Drop)]
pub enum Opening {
    /// `Usage: .program object:verb`
    OtherForm,
    /// `I don't see that here.`
    NotSeen,
    /// `You can't program that verb.`: it is not there, or may not be written.
    NotAllowed,
    /// `Now programming #n:v.`: the lines that follow are collected for the verb of this object, by this name, which now stands at
    /// this place, from 0.
    Collects(i32, Text, usize),
}

/// What comes of a player's `.program` line that asks for this.
pub fn open<V: View>(
    alloc: Global,
    view: &mut V,
    player: i32,
    request: Request,
) -> Result<Opening, AllocError>
    requires home { V.holds view.old (V.home view.old) }
    requires well_formed { AreAgreeing V.holds V.now view.old }
    ensures lasts { Lasts V.holds V.home V.anchor view.old view.new result }
    ensures left { IfOk result (λ o. Tells V.holds V.now view.old view.new
        (λ w. (s : Scene) (c : ℤ) → s.world ≡ w → requested s c player (request_of request) ≡ opened s c player o)) }
{
    match request {
        Request::Verb(text, name) => open_named(alloc, view, player, text, name),
        Request::OtherForm => Ok(Opening::OtherForm),
    }
}

// What comes of it where it names an object and a verb.
fn open_named<V: View>(
    alloc: Global,
    view: &mut V,
    player: i32,
    text: Text,
    name: Text,
) -> Result<Opening, AllocError>
    requires home { V.holds view.old (V.home view.old) }
    requires well_formed { AreAgreeing V.holds V.now view.old }
    ensures lasts { Lasts V.holds V.home V.anchor view.old view.new result }
    ensures left { IfOk result (λ o. Tells V.holds V.now view.old view.new
        (λ w. (s : Scene) (c : ℤ) → s.world ≡ w → requested s c player (programs_verb text name) ≡ opened s c player o)) }
{
    let object = name_object(alloc, view, player, text.as_str())?;
    let opening = open_on(view, player, object, name)?;
    Ok(opening)
}

// What comes of it where the object is known.
fn open_on<V: View>(
    view: &mut V,
    player: i32,
    object: i32,
    name: Text,
) -> Result<Opening, AllocError>
    requires home { V.holds view.old (V.home view.old) }
    requires well_formed { AreAgreeing V.holds V.now view.old }
    ensures lasts { Lasts V.holds V.home V.anchor view.old view.new result }
    ensures left { IfOk result (λ o. Tells V.holds V.now view.old view.new
        (λ w. (s : Scene) (c : ℤ) → s.world ≡ w → opens s c player object name (object_at w object) ≡ opened s c player o)) }
{
    let verbs = read_verbs(view, object)?;
    if verbs.is_none() {
        return Ok(Opening::NotSeen);
    }
    let place = own_place(&verbs, name.as_str());
    let allowed = allowed_at(view, player, object, place)?;
    Ok(begun(object, name, allowed))
}

fn begun(object: i32, name: Text, place: Option<usize>) -> Opening
    ensures { result ≡ begun object name place }
{
    match place {
        Some(place) => Opening::Collects(object, name, place),
        None => Opening::NotAllowed,
    }
}

/// Where the verb of an object stands that a player may program by a name, from 0: one of the object's own.
pub fn programmable<V: View>(
    view: &mut V,
    player: i32,
    object: i32,
    name: &str,
) -> Result<Option<usize>, AllocError>
    requires home { V.holds view.old (V.home view.old) }
    requires well_formed { AreAgreeing V.holds V.now view.old }
    ensures lasts { Lasts V.holds V.home V.anchor view.old view.new result }
    ensures left { IfOk result (λ n. Tells V.holds V.now view.old view.new (λ w. programmable_of w player object name.now ≡ n)) }
{
    let verbs = read_verbs(view, object)?;
    let place = own_place(&verbs, name);
    let allowed = allowed_at(view, player, object, place)?;
    Ok(allowed)
}

// The place, if the verb there may be programmed.
fn allowed_at<V: View>(
    view: &mut V,
    player: i32,
    object: i32,
    place: Option<usize>,
) -> Result<Option<usize>, AllocError>
    requires { V.holds view.old (V.home view.old) }
    ensures lasts { Lasts V.holds V.home V.anchor view.old view.new result }
    ensures left { IfOk result (λ n. Tells V.holds V.now view.old view.new (λ w. programmable_at w player object place ≡ n)) }
{
    match place {
        Some(place) => allowed_there(view, player, object, place),
        None => Ok(None),
    }
}

fn allowed_there<V: View>(
    view: &mut V,
    player: i32,
    object: i32,
    place: usize,
) -> Result<Option<usize>, AllocError>
    requires { V.holds view.old (V.home view.old) }
    ensures lasts { Lasts V.holds V.home V.anchor view.old view.new result }
    ensures left { IfOk result (λ n. Tells V.holds V.now view.old view.new (λ w. programmable_at w player object (Some place) ≡ n)) }
{
    let act = programming(object, place);
    let allowed = may(view, player, &act)?;
    if !allowed {
        return Ok(None);
    }
    Ok(Some(place))
}

fn programming(object: i32, place: usize) -> Act
    ensures { act_of result ≡ program_verb object place }
{
    Act::ProgramVerb(object, place)
}

// Where the first of an object's own verbs stands that a word spells.
fn own_place(verbs: &Option<Verbs>, word: &str) -> Option<usize>
    ensures { result ≡ place_among verbs.now word.now }
{
    match verbs {
        Some(verbs) => place_of(verbs.as_slice(), word),
        None => None,
    }
}

#[tactic(auto, using(crate::proofs::ProgramRules::the_places))]
fn place_of(verbs: &[Verb], word: &str) -> Option<usize>
    ensures { result ≡ place_of_word word.now verbs.now }
{
    for (place, verb) in verbs.iter().enumerate() {
        if matches(verb.names.as_str(), word) {
            return Some(place);
        }
    }
    None
}
