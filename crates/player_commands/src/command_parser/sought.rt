//! Verbs that commands mean.
ghost use Rattle.std.specs.Prelude.{◌≡◌, IfOk, option_map};
ghost use Rattle.spec_world.specs.CommandLines.{meant_on as meant_on_of, verb_meant as verb_meant_of};
ghost use Rattle.rules.specs.Lines.{AreAgreeing};
ghost use Rattle.view.specs.Law.{Lasts, Tells};
ghost use Rattle.player_commands.specs.Meanings.{named_of, meant_of, meant_in_room, meant_by_objects};

use crate::command_parser::command::{Meant, Said};
use crate::object_match::place::location;
use rules::inherit::verb::find_command_verb;
use std::alloc::AllocError;
use view::law::View;

/// The verb that a command means: the first one on the player, the room, the direct and the indirect object, in this order.
pub(crate) fn verb_meant<V: View>(
    view: &mut V,
    player: i32,
    said: &Said,
) -> Result<Option<Meant>, AllocError>
    requires home { V.holds view.old (V.home view.old) }
    requires well_formed { AreAgreeing V.holds V.now view.old }
    ensures lasts { Lasts V.holds V.home V.anchor view.old view.new result }
    ensures left { IfOk result (λ m. Tells V.holds V.now view.old view.new
        (λ w. verb_meant_of w player said.now.parts.verb (named_of said.now) ≡ option_map meant_of m)) }
{
    if let Some(meant) = meant_on(view, player, said)? {
        return Ok(Some(meant));
    }
    in_room(view, player, said)
}

// The first one on the player's room, the direct and the indirect object.
fn in_room<V: View>(view: &mut V, player: i32, said: &Said) -> Result<Option<Meant>, AllocError>
    requires home { V.holds view.old (V.home view.old) }
    requires well_formed { AreAgreeing V.holds V.now view.old }
    ensures lasts { Lasts V.holds V.home V.anchor view.old view.new result }
    ensures left { IfOk result (λ m. Tells V.holds V.now view.old view.new
        (λ w. meant_in_room w player said.now.parts.verb (named_of said.now) ≡ option_map meant_of m)) }
{
    let room = location(view, player)?;
    if let Some(meant) = meant_on(view, room, said)? {
        return Ok(Some(meant));
    }
    by_objects(view, said)
}

// The first one on the direct and the indirect object.
fn by_objects<V: View>(view: &mut V, said: &Said) -> Result<Option<Meant>, AllocError>
    requires home { V.holds view.old (V.home view.old) }
    requires well_formed { AreAgreeing V.holds V.now view.old }
    ensures lasts { Lasts V.holds V.home V.anchor view.old view.new result }
    ensures left { IfOk result (λ m. Tells V.holds V.now view.old view.new
        (λ w. meant_by_objects w said.now.parts.verb (named_of said.now) ≡ option_map meant_of m)) }
{
    if let Some(meant) = meant_on(view, said.direct, said)? {
        return Ok(Some(meant));
    }
    meant_on(view, said.indirect, said)
}

// The one on an object or its ancestors.
fn meant_on<V: View>(view: &mut V, object: i32, said: &Said) -> Result<Option<Meant>, AllocError>
    requires home { V.holds view.old (V.home view.old) }
    requires well_formed { AreAgreeing V.holds V.now view.old }
    ensures lasts { Lasts V.holds V.home V.anchor view.old view.new result }
    ensures left { IfOk result (λ m. Tells V.holds V.now view.old view.new
        (λ w. meant_on_of w said.now.parts.verb (named_of said.now) object ≡ option_map meant_of m)) }
{
    let wanted = said.named();
    let verb = find_command_verb(view, object, said.parts.verb.as_str(), &wanted)?;
    Ok(Meant::on(object, verb))
}
