//! Who may do what.
ghost use Rattle.std.specs.Prelude.{◌≡◌, ◌||◌, IfOk, option_map};
ghost use Rattle.std.specs.Ordering.{int_eq};
ghost use Rattle.spec_world.specs.World.{object_at};
ghost use Rattle.spec_world.specs.Inherit.{slot_at};
ghost use Rattle.spec_world.specs.Permissions.{may as may_of, granted as granted_of, is_wizard as is_wizard_of, is_programmer as is_programmer_of, owns_or as owns_or_of, write_name, list_members, change_members, have_child, program_verb, in_place, on_slot, of_object, of_verb, verb_in};
ghost use Rattle.view.specs.Law.{Lasts, Tells};
ghost use Rattle.rules.specs.Acts.{act_of};

use crate::permissions::act::Act;
use moo_value::text::Text;
use std::alloc::AllocError;
use view::law::View;
use view::readers::{read_header, read_slot, read_verbs};
use view::verb::{Verb, Verbs};

/// Whether a programmer may do something.
#[tactic(auto, unfolding(spec_world::specs::Permissions::may))]
pub fn may<V: View>(view: &mut V, who: i32, act: &Act) -> Result<bool, AllocError>
    requires { V.holds view.old (V.home view.old) }
    ensures lasts { Lasts V.holds V.home V.anchor view.old view.new result }
    ensures left { IfOk result (λ b. Tells V.holds V.now view.old view.new (λ w. may_of w who (act_of act.now) ≡ b)) }
{
    match act {
        Act::WritePlace(_) => Ok(false),
        Act::Evaluate => is_programmer(view, who),
        _ => {
            if is_granted(view, who, act)? {
                return Ok(true);
            }
            is_wizard(view, who)
        }
    }
}

/// Whether one may do what is allowed to an owner, to everyone where a bit is set, and to wizards.
pub fn owns_or_is_wizard<V: View>(
    view: &mut V,
    who: i32,
    owner: i32,
    bit: bool,
) -> Result<bool, AllocError>
    requires { V.holds view.old (V.home view.old) }
    ensures lasts { Lasts V.holds V.home V.anchor view.old view.new result }
    ensures left { IfOk result (λ b. Tells V.holds V.now view.old view.new (λ w. (is_wizard_of w who || owns_or_of who owner bit) ≡ b)) }
{
    if owns_or(who, owner, bit) {
        return Ok(true);
    }
    is_wizard(view, who)
}

/// Whether an object is there and has the flag of a wizard.
#[inline(never)]
pub fn is_wizard<V: View>(view: &mut V, object: i32) -> Result<bool, AllocError>
    ensures lasts { Lasts V.holds V.home V.anchor view.old view.new result }
    ensures left { IfOk result (λ b. Tells V.holds V.now view.old view.new (λ w. is_wizard_of w object ≡ b)) }
{
    match read_header(view, object)? {
        Some(header) => Ok(header.is_wizard),
        None => Ok(false),
    }
}

/// Whether an object is there and has the flag of a programmer.
pub fn is_programmer<V: View>(view: &mut V, object: i32) -> Result<bool, AllocError>
    ensures lasts { Lasts V.holds V.home V.anchor view.old view.new result }
    ensures left { IfOk result (λ b. Tells V.holds V.now view.old view.new (λ w. is_programmer_of w object ≡ b)) }
{
    match read_header(view, object)? {
        Some(header) => Ok(header.is_programmer),
        None => Ok(false),
    }
}

// Whether an act is allowed to those who are no wizards.
fn is_granted<V: View>(view: &mut V, who: i32, act: &Act) -> Result<bool, AllocError>
    requires { V.holds view.old (V.home view.old) }
    ensures lasts { Lasts V.holds V.home V.anchor view.old view.new result }
    ensures left { IfOk result (λ b. Tells V.holds V.now view.old view.new (λ w. granted_of w who (act_of act.now) ≡ b)) }
{
    match act {
        Act::ReadSlot(object, name) => may_read_slot(view, who, *object, name),
        Act::WriteSlot(object, name) => may_write_slot(view, who, *object, name),
        Act::WriteName(object) => may_write_name(view, who, *object),
        Act::WriteBits(object) | Act::ChangeObject(object) => owns(view, who, *object),
        Act::ListMembers(object) => may_list_members(view, who, *object),
        Act::ChangeMembers(object) => may_change_members(view, who, *object),
        Act::ChangeOwner(before, after) => Ok(*before == *after),
        Act::ReadVerb(object, place) => may_read_verb(view, who, *object, *place),
        Act::WriteVerb(object, place) => may_write_verb(view, who, *object, *place),
        Act::ProgramVerb(object, place) => may_program_verb(view, who, *object, *place),
        Act::HaveChild(parent) => may_have_child(view, who, *parent),
        Act::ActAs(object) | Act::ControlTask(object) => Ok(who == *object),
        Act::WriteStanding(_) | Act::Administer | Act::WritePlace(_) | Act::Evaluate => Ok(false),
    }
}

fn may_read_slot<V: View>(
    view: &mut V,
    who: i32,
    object: i32,
    name: &Text,
) -> Result<bool, AllocError>
    ensures lasts { Lasts V.holds V.home V.anchor view.old view.new result }
    ensures left { IfOk result (λ b. Tells V.holds V.now view.old view.new
        (λ w. on_slot (slot_at w object name.now) (λ s. owns_or_of who s.owner s.readable) ≡ b)) }
{
    match read_slot(view, object, name)? {
        Some(slot) => Ok(owns_or(who, slot.owner, slot.readable)),
        None => Ok(false),
    }
}

fn may_write_slot<V: View>(
    view: &mut V,
    who: i32,
    object: i32,
    name: &Text,
) -> Result<bool, AllocError>
    ensures lasts { Lasts V.holds V.home V.anchor view.old view.new result }
    ensures left { IfOk result (λ b. Tells V.holds V.now view.old view.new
        (λ w. on_slot (slot_at w object name.now) (λ s. owns_or_of who s.owner s.writable) ≡ b)) }
{
    match read_slot(view, object, name)? {
        Some(slot) => Ok(owns_or(who, slot.owner, slot.writable)),
        None => Ok(false),
    }
}

// A player's name is for wizards alone.
fn may_write_name<V: View>(view: &mut V, who: i32, object: i32) -> Result<bool, AllocError>
    ensures lasts { Lasts V.holds V.home V.anchor view.old view.new result }
    ensures left { IfOk result (λ b. Tells V.holds V.now view.old view.new (λ w. granted_of w who (write_name object) ≡ b)) }
{
    match read_header(view, object)? {
        Some(header) => Ok(who == header.owner && !header.is_player),
        None => Ok(false),
    }
}

fn owns<V: View>(view: &mut V, who: i32, object: i32) -> Result<bool, AllocError>
    ensures lasts { Lasts V.holds V.home V.anchor view.old view.new result }
    ensures left { IfOk result (λ b. Tells V.holds V.now view.old view.new
        (λ w. of_object (object_at w object) (λ x. int_eq who x.header.owner) ≡ b)) }
{
    match read_header(view, object)? {
        Some(header) => Ok(who == header.owner),
        None => Ok(false),
    }
}

fn may_list_members<V: View>(view: &mut V, who: i32, object: i32) -> Result<bool, AllocError>
    ensures lasts { Lasts V.holds V.home V.anchor view.old view.new result }
    ensures left { IfOk result (λ b. Tells V.holds V.now view.old view.new (λ w. granted_of w who (list_members object) ≡ b)) }
{
    match read_header(view, object)? {
        Some(header) => Ok(who == header.owner || header.readable),
        None => Ok(false),
    }
}

fn may_change_members<V: View>(view: &mut V, who: i32, object: i32) -> Result<bool, AllocError>
    ensures lasts { Lasts V.holds V.home V.anchor view.old view.new result }
    ensures left { IfOk result (λ b. Tells V.holds V.now view.old view.new (λ w. granted_of w who (change_members object) ≡ b)) }
{
    match read_header(view, object)? {
        Some(header) => Ok(who == header.owner || header.writable),
        None => Ok(false),
    }
}

fn may_have_child<V: View>(view: &mut V, who: i32, parent: i32) -> Result<bool, AllocError>
    ensures lasts { Lasts V.holds V.home V.anchor view.old view.new result }
    ensures left { IfOk result (λ b. Tells V.holds V.now view.old view.new (λ w. granted_of w who (have_child parent) ≡ b)) }
{
    match read_header(view, parent)? {
        Some(header) => Ok(who == header.owner || header.fertile),
        None => Ok(false),
    }
}

fn may_read_verb<V: View>(
    view: &mut V,
    who: i32,
    object: i32,
    place: usize,
) -> Result<bool, AllocError>
    ensures lasts { Lasts V.holds V.home V.anchor view.old view.new result }
    ensures left { IfOk result (λ b. Tells V.holds V.now view.old view.new
        (λ w. of_verb (verb_in (object_at w object) place) (λ v. owns_or_of who v.owner v.readable) ≡ b)) }
{
    let Some(verbs) = read_verbs(view, object)? else {
        return Ok(false);
    };
    match verb_at(&verbs, place) {
        Some(verb) => Ok(owns_or(who, verb.owner, verb.readable)),
        None => Ok(false),
    }
}

fn may_write_verb<V: View>(
    view: &mut V,
    who: i32,
    object: i32,
    place: usize,
) -> Result<bool, AllocError>
    ensures lasts { Lasts V.holds V.home V.anchor view.old view.new result }
    ensures left { IfOk result (λ b. Tells V.holds V.now view.old view.new
        (λ w. of_verb (verb_in (object_at w object) place) (λ v. owns_or_of who v.owner v.writable) ≡ b)) }
{
    let Some(verbs) = read_verbs(view, object)? else {
        return Ok(false);
    };
    match verb_at(&verbs, place) {
        Some(verb) => Ok(owns_or(who, verb.owner, verb.writable)),
        None => Ok(false),
    }
}

// The flag of a programmer is wanted too.
fn may_program_verb<V: View>(
    view: &mut V,
    who: i32,
    object: i32,
    place: usize,
) -> Result<bool, AllocError>
    ensures lasts { Lasts V.holds V.home V.anchor view.old view.new result }
    ensures left { IfOk result (λ b. Tells V.holds V.now view.old view.new (λ w. granted_of w who (program_verb object place) ≡ b)) }
{
    if !is_programmer(view, who)? {
        return Ok(false);
    }
    may_write_verb(view, who, object, place)
}

// The verb at a place, from 0.
#[tactic(auto, using(crate::proofs::Places::stands_there, crate::proofs::Places::stands_none))]
fn verb_at(verbs: &Verbs, place: usize) -> Option<&Verb>
    ensures { option_map (λ v. v.now) result ≡ in_place verbs.now place }
{
    let verbs = verbs.as_slice();
    if place < verbs.len() {
        Some(&verbs[place])
    } else {
        None
    }
}

fn owns_or(who: i32, owner: i32, bit: bool) -> bool
    ensures { result ≡ owns_or_of who owner bit }
{
    who == owner || bit
}
