//! What calls that only ask the world answer.
ghost use Rattle.std.specs.Prelude.{IfOk};
ghost use Rattle.moo_value.specs.Answers.{answer_of};
ghost use Rattle.rules.specs.Lines.{AreAgreeing};
ghost use Rattle.view.specs.Law.{Lasts, Tells};
ghost use Rattle.builtins_view.specs.Said.{Says};
ghost use Rattle.builtins_view.specs.Requests.{asking_of, said_of};

use crate::builtins_code::reading::verb_code;
use crate::builtins_links::players::connected_players;
use crate::builtins_queue::listing::queued_tasks;
use builtins_view::builtin_requests::asking::Asking;
use builtins_view::builtins_players::listing::players;
use builtins_view::builtins_world::objects::{children, is_player, max_object, parent, valid};
use builtins_view::builtins_world::properties::{is_clear_property, properties, property_info};
use builtins_view::builtins_world::verbs::{verb_args, verb_info, verbs};
use moo_value::answer::Answer;
use std::alloc::{AllocError, Global};
use view::law::View;

/// What a call answers that a verb with this programmer makes.
pub fn ask<V: View>(
    alloc: Global,
    view: &mut V,
    programmer: i32,
    asking: Asking,
) -> Result<Answer, AllocError>
    requires home { V.holds view.old (V.home view.old) }
    requires well_formed { AreAgreeing V.holds V.now view.old }
    ensures lasts { Lasts V.holds V.home V.anchor view.old view.new result }
    ensures left { IfOk result (λ a. Tells V.holds V.now view.old view.new (λ w. Says (said_of (asking_of asking)) w programmer (answer_of a))) }
{
    match asking {
        Asking::Valid(object) => Ok(valid(view, object)?),
        Asking::IsPlayer(object) => Ok(is_player(view, object)?),
        Asking::Parent(object) => Ok(parent(view, object)?),
        Asking::Children(object) => Ok(children(alloc, view, object)?),
        Asking::MaxObject => Ok(max_object(view)?),
        Asking::Players => Ok(players(alloc, view)?),
        Asking::Properties(object) => Ok(properties(alloc, view, programmer, object)?),
        Asking::PropertyInfo(object, name) => {
            Ok(property_info(alloc, view, programmer, object, &name)?)
        }
        Asking::IsClearProperty(object, name) => {
            Ok(is_clear_property(view, programmer, object, &name)?)
        }
        Asking::Verbs(object) => Ok(verbs(alloc, view, programmer, object)?),
        Asking::VerbInfo(object, which) => {
            Ok(verb_info(alloc, view, programmer, object, &which)?)
        }
        Asking::VerbArgs(object, which) => {
            Ok(verb_args(alloc, view, programmer, object, &which)?)
        }
        Asking::VerbCode(object, which) => Ok(verb_code(alloc, view, programmer, object, &which)?),
        Asking::QueuedTasks => Ok(queued_tasks(alloc, view, programmer)?),
        Asking::ConnectedPlayers => Ok(connected_players(alloc, view)?),
    }
}
