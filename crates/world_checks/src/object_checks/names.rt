//! Whether the slots of an object are those of its parent and of what it defines.
ghost use Rattle.std.specs.Prelude.{◌≡◌, [], map, IfOk, IsTrue, is_some};
ghost use Rattle.std.specs.List.{list_all};
ghost use Rattle.spec_value.specs.Datum.{fold_case};
ghost use Rattle.spec_value.specs.Table.{named};
ghost use Rattle.spec_world.specs.Inherit.{content_of};
ghost use Rattle.spec_world.specs.WellFormed.{names_once};
ghost use Rattle.spec_world.specs.World.{object_at};
ghost use Rattle.spec_world.specs.Locally.{names_of, inherited_names, slots_follow};
ghost use Rattle.world_checks.specs.Merge.{InOrder};

use crate::object_checks::way::{Way, up};
use crate::table_checks::merge::is_merge;
use moo_value::text::Text;
use std::alloc::{AllocError, Global};
use view::object::Object;
use view::slot::Slot;
use view::slots::Slots;
use world::draft::Draft;

/// Whether an object defines each property once, its parent has no slot of that name, and it has a slot for each of these and of its
/// parent's, and no other.
pub fn slots_follow(
    alloc: Global,
    draft: &Draft,
    number: i32,
    object: &Object,
) -> Result<bool, AllocError>
    ensures tells { IfOk result (λ b. IsTrue b → IsTrue (slots_follow draft.now number object.now)) }
    ensures finds { IfOk result (λ b. IsTrue (slots_follow draft.now number object.now) → IsTrue b) }
{
    let names = object.defines().as_slice();
    let slots = own_slots(object);
    let others = inherited(draft, object, &slots[..0]);
    is_merge(alloc, names, others, slots)
}

// The slots of the parent, or none.
fn inherited<'a>(draft: &'a Draft, object: &Object, none: &'a [(Text, Slot)]) -> &'a [(Text, Slot)]
    requires { none.now ≡ [] }
    ensures names { map (λ e. e.0) result.now ≡ inherited_names draft.now object.now }
    ensures once { IsTrue (names_once (map (λ e. e.0) result.now)) }
    ensures order { InOrder (map (λ e. e.0) result.now) }
{
    slots_at(draft, up(Way::Parent, object), none)
}

#[tactic(auto, using(crate::proofs::Follow::none_once, crate::proofs::Follow::none_order))]
fn slots_at<'a>(draft: &'a Draft, number: i32, none: &'a [(Text, Slot)]) -> &'a [(Text, Slot)]
    requires { none.now ≡ [] }
    ensures names { map (λ e. e.0) result.now ≡ names_of (object_at draft.now number) }
    ensures once { IsTrue (names_once (map (λ e. e.0) result.now)) }
    ensures order { InOrder (map (λ e. e.0) result.now) }
{
    match draft.object(number) {
        Some(object) => own_slots(object),
        None => none,
    }
}

// The slots of an object, in rising order of names.
#[tactic(auto, using(crate::proofs::Merged::sorted_once, crate::proofs::Ordered::named_order))]
fn own_slots(object: &Object) -> &[(Text, Slot)]
    ensures slots { result.now ≡ object.now.slots }
    ensures once { IsTrue (names_once (map (λ e. e.0) result.now)) }
    ensures order { InOrder (map (λ e. e.0) result.now) }
{
    object.slots().as_slice()
}

/// Whether each of these properties has a slot that is not clear.
pub fn are_filled(slots: &Slots, names: &[Text]) -> bool
    ensures { result ≡ list_all (λ t. is_some (content_of (named slots.now (fold_case t)))) names.now }
{
    for name in names {
        if !is_filled(slots, name) {
            return false;
        }
    }
    true
}

#[tactic(auto, using(crate::proofs::Follow::filled))]
fn is_filled(slots: &Slots, name: &Text) -> bool
    ensures { result ≡ is_some (content_of (named slots.now (fold_case name.now))) }
{
    match slots.get(name) {
        Some(slot) => !slot.content.is_clear(),
        None => false,
    }
}
