//! Properties that are changed (Programmer's Manual, "Operations on Properties").
ghost use Rattle.std.specs.Prelude.{◌≡◌, ◌&&◌, [], ◌∷◌, is_some, codes, IfOk, OnOk};
ghost use Rattle.spec_value.specs.Datum.{object as object_of, text as text_value};
ghost use Rattle.spec_world.specs.World.{object_at};
ghost use Rattle.spec_world.specs.Permissions.{write_slot};
ghost use Rattle.spec_moo.specs.Natives.Properties.{are_bits as are_bits_of, set_property_info_row, with_slot_bits};
ghost use Rattle.moo_value.specs.Answers.{answer_of};
ghost use Rattle.view.specs.Law.{Goes, Lasts, Tells};
ghost use Rattle.rules.specs.Acts.{act_of};
ghost use Rattle.rules.specs.Lines.{AreAgreeing};
ghost use Rattle.builtins_view.specs.Said.{Does};
ghost use Rattle.builtins_view.specs.BuiltinsChangeLater.{slot_given};
ghost use Rattle.builtins_view.specs.BuiltinsChangeListed.{owner_and_bits};

use crate::builtins_change::asked::is_there;
use crate::builtins_change::bits::{are_bits, has_bit};
use crate::builtins_world::properties::{missing, put_slot};
use moo_value::answer::Answer;
use moo_value::error::MooError;
use moo_value::text::Text;
use moo_value::value::Value;
use rules::permissions::act::Act;
use rules::permissions::may::may;
use std::alloc::AllocError;
use view::law::View;
use view::readers::read_slot;
use view::slot::Slot;

/// `set_property_info`. `E_INVARG` where the object is not there, `E_PROPNF` where it has no such slot, `E_PERM` where the
/// programmer may not write it or not give it to that owner, and `E_INVARG` for other bits than r, w and c and for an owner
/// that is not there.
pub fn set_property_info<V: View>(
    view: &mut V,
    programmer: i32,
    object: i32,
    name: &Text,
    owner: i32,
    bits: &Text,
) -> Result<Answer, AllocError>
    requires home { V.holds view.old (V.home view.old) }
    ensures lasts { Lasts V.holds V.home V.anchor view.old view.new result }
    ensures left { IfOk result (λ a. Goes V.holds V.now view.old view.new
        (λ before after. Does (λ s c. set_property_info_row s c (object_of object ∷ text_value name.now ∷ owner_and_bits owner bits.now ∷ []))
        before after programmer (answer_of a))) }
    ensures well_formed { AreAgreeing V.holds V.now view.old → OnOk result (AreAgreeing V.holds V.now view.new) }
{
    let Some(slot) = read_slot(view, object, name)? else {
        let error = missing(view, object)?;
        return Ok(Err(error));
    };
    let act = writing(object, name)?;
    let allowed = may(view, programmer, &act)?;
    if !allowed {
        return Ok(Err(MooError::PermissionDenied));
    }
    let answer = give_slot(view, programmer, object, name, slot, owner, bits)?;
    Ok(answer)
}

fn writing(object: i32, name: &Text) -> Result<Act, AllocError>
    ensures { IfOk result (λ a. act_of a ≡ write_slot object name.now) }
{
    Ok(Act::WriteSlot(object, name.clone()?))
}

// A slot that may be written has another owner and other bits.
fn give_slot<V: View>(
    view: &mut V,
    programmer: i32,
    object: i32,
    name: &Text,
    slot: Slot,
    owner: i32,
    bits: &Text,
) -> Result<Answer, AllocError>
    requires home { V.holds view.old (V.home view.old) }
    ensures lasts { Lasts V.holds V.home V.anchor view.old view.new result }
    ensures left { IfOk result (λ a. Goes V.holds V.now view.old view.new
        (λ before after. Does (slot_given object name.now slot owner bits.now) before after programmer (answer_of a))) }
{
    if !may(view, programmer, &Act::ChangeOwner(owner_of(&slot), owner))? {
        return Ok(Err(MooError::PermissionDenied));
    }
    if !fits(view, owner, bits)? {
        return Ok(Err(MooError::InvalidArgument));
    }
    put_slot(
        view,
        object,
        name,
        with_bits(slot, owner, bits.as_str().as_bytes()),
    )?;
    Ok(Ok(Value::integer(0)))
}

/// Whether the bits are those of slots, and the owner is there.
pub fn fits<V: View>(view: &mut V, owner: i32, bits: &Text) -> Result<bool, AllocError>
    requires home { V.holds view.old (V.home view.old) }
    ensures lasts { Lasts V.holds V.home V.anchor view.old view.new result }
    ensures left { IfOk result (λ b. Tells V.holds V.now view.old view.new (λ w. (are_bits_of (codes "rwc") bits.now && is_some (object_at w owner)) ≡ b)) }
{
    if !are_bits(b"rwc", bits.as_str().as_bytes()) {
        return Ok(false);
    }
    is_there(view, owner)
}

fn owner_of(slot: &Slot) -> i32
    ensures { result ≡ slot.now.owner }
{
    slot.owner
}

/// A slot with another owner and other bits.
pub fn with_bits(slot: Slot, owner: i32, bits: &[u8]) -> Slot
    ensures { result ≡ with_slot_bits slot owner bits.now }
{
    Slot {
        owner,
        readable: has_bit(b'r', bits),
        writable: has_bit(b'w', bits),
        changeable: has_bit(b'c', bits),
        ..slot
    }
}
