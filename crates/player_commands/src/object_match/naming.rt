//! Objects by what players call them.
ghost use Rattle.std.specs.Prelude.{◌≡◌, IfOk, Some};
ghost use Rattle.spec_world.specs.Naming.{name_object as name_object_of, by_number, by_words as by_words_of, by_name as by_name_of};
ghost use Rattle.rules.specs.Lines.{AreAgreeing};
ghost use Rattle.view.specs.Law.{Lasts, Tells};

use crate::object_match::number::object_number;
use crate::object_match::place::location;
use crate::object_match::reach::with_contents;
use crate::object_match::tally::NO_MATCHES;
use moo_value::text::Text;
use std::alloc::{AllocError, Global};
use view::law::View;
use view::readers::read_header;
use view::verb_names::is_same;

/// The object that a player means by a text: its number, `me`, `here`, or a name or alias of what the player holds and of what
/// is in the room, or the beginning of one. Aliases are read without permission, and case is ignored. -1 for no text, -2 where
/// several objects are meant, -3 where none is.
pub fn name_object<V: View>(
    alloc: Global,
    view: &mut V,
    player: i32,
    text: &str,
) -> Result<i32, AllocError>
    requires home { V.holds view.old (V.home view.old) }
    requires well_formed { AreAgreeing V.holds V.now view.old }
    ensures lasts { Lasts V.holds V.home V.anchor view.old view.new result }
    ensures left { IfOk result (λ o. Tells V.holds V.now view.old view.new (λ w. name_object_of w player text.now ≡ o)) }
{
    if text.is_empty() {
        return Ok(-1);
    }
    match object_number(text.as_bytes()) {
        Some(object) => numbered(alloc, view, player, text, object),
        None => by_words(alloc, view, player, text),
    }
}

// The object of a number, if it is there.
fn numbered<V: View>(
    alloc: Global,
    view: &mut V,
    player: i32,
    text: &str,
    object: i32,
) -> Result<i32, AllocError>
    requires home { V.holds view.old (V.home view.old) }
    requires well_formed { AreAgreeing V.holds V.now view.old }
    ensures lasts { Lasts V.holds V.home V.anchor view.old view.new result }
    ensures left { IfOk result (λ o. Tells V.holds V.now view.old view.new (λ w. by_number w player text.now (Some object) ≡ o)) }
{
    let header = read_header(view, object)?;
    if header.is_some() {
        return Ok(object);
    }
    by_words(alloc, view, player, text)
}

fn by_words<V: View>(
    alloc: Global,
    view: &mut V,
    player: i32,
    text: &str,
) -> Result<i32, AllocError>
    requires home { V.holds view.old (V.home view.old) }
    requires well_formed { AreAgreeing V.holds V.now view.old }
    ensures lasts { Lasts V.holds V.home V.anchor view.old view.new result }
    ensures left { IfOk result (λ o. Tells V.holds V.now view.old view.new (λ w. by_words_of w player text.now ≡ o)) }
{
    if is_same(text.as_bytes(), b"me") {
        return Ok(player);
    }
    if is_same(text.as_bytes(), b"here") {
        return location(view, player);
    }
    by_name(alloc, view, player, text)
}

// By the names and the aliases of what the player holds and of what is in the room.
fn by_name<V: View>(alloc: Global, view: &mut V, player: i32, text: &str) -> Result<i32, AllocError>
    requires home { V.holds view.old (V.home view.old) }
    requires well_formed { AreAgreeing V.holds V.now view.old }
    ensures lasts { Lasts V.holds V.home V.anchor view.old view.new result }
    ensures left { IfOk result (λ o. Tells V.holds V.now view.old view.new (λ w. by_name_of w player text.now ≡ o)) }
{
    let aliases = Text::from_str(alloc, "aliases")?;
    let held = with_contents(view, NO_MATCHES, player, text, &aliases)?;
    let room = location(view, player)?;
    let matches = with_contents(view, held, room, text, &aliases)?;
    Ok(matches.answer())
}
