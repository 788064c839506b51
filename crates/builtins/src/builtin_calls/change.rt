//! What calls that change the world do.
ghost use Rattle.std.specs.Prelude.{IfOk, OnOk};
ghost use Rattle.moo_value.specs.Answers.{answer_of};
ghost use Rattle.rules.specs.Lines.{AreAgreeing};
ghost use Rattle.view.specs.Law.{Goes, Lasts};
ghost use Rattle.builtins_view.specs.Said.{Does};
ghost use Rattle.builtins_view.specs.Requests.{changing_of, said_of};

use crate::builtins_code::programming::set_verb_code;
use crate::builtins_objects::chparent::chparent;
use builtins_view::builtin_requests::changing::Changing;
use builtins_view::builtins_change::properties::set_property_info;
use builtins_view::builtins_change::verbs::{add_verb, delete_verb, set_verb_args, set_verb_info};
use builtins_view::builtins_family::adding::add_property;
use builtins_view::builtins_family::deleting::delete_property;
use builtins_view::builtins_task::server::shutdown;
use builtins_view::builtins_world::properties::clear_property;
use moo_value::answer::Answer;
use std::alloc::{AllocError, Global};
use view::law::View;

/// What a call does that a verb with this programmer makes.
pub fn change<V: View>(
    alloc: Global,
    view: &mut V,
    programmer: i32,
    changing: Changing,
) -> Result<Answer, AllocError>
    requires home { V.holds view.old (V.home view.old) }
    requires well_formed { AreAgreeing V.holds V.now view.old }
    ensures lasts { Lasts V.holds V.home V.anchor view.old view.new result }
    ensures left { IfOk result (λ a. Goes V.holds V.now view.old view.new
        (λ before after. Does (said_of (changing_of changing)) before after programmer (answer_of a))) }
    ensures well_formed { OnOk result (AreAgreeing V.holds V.now view.new) }
{
    match changing {
        Changing::Chparent(object, parent) => {
            Ok(chparent(alloc, view, programmer, object, parent)?)
        }
        Changing::SetPropertyInfo(object, name, owner, bits) => {
            Ok(set_property_info(view, programmer, object, &name, owner, &bits)?)
        }
        Changing::AddProperty(object, name, value, owner, bits) => Ok(add_property(
            alloc, view, programmer, object, &name, value, owner, &bits,
        )?),
        Changing::DeleteProperty(object, name) => {
            Ok(delete_property(alloc, view, programmer, object, &name)?)
        }
        Changing::ClearProperty(object, name) => {
            Ok(clear_property(view, programmer, object, &name)?)
        }
        Changing::SetVerbInfo(object, which, info) => {
            Ok(set_verb_info(alloc, view, programmer, object, &which, &info)?)
        }
        Changing::SetVerbArgs(object, which, words) => {
            Ok(set_verb_args(alloc, view, programmer, object, &which, &words)?)
        }
        Changing::AddVerb(object, info, words) => {
            Ok(add_verb(alloc, view, programmer, object, &info, &words)?)
        }
        Changing::DeleteVerb(object, which) => {
            Ok(delete_verb(alloc, view, programmer, object, &which)?)
        }
        Changing::SetVerbCode(object, which, lines) => {
            let given = lines.as_slice();
            Ok(set_verb_code(alloc, view, programmer, object, &which, given)?)
        },
        Changing::Shutdown => Ok(shutdown(view, programmer)?),
    }
}
