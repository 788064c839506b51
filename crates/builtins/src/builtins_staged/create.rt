//! New objects (Programmer's Manual, `create()`).
ghost use Rattle.std.specs.Prelude.{◌≡◌, ◌&&◌, ◌||◌, pos, neg_ℤ, [], ◌∷◌, Some, is_some, IfOk, OnOk};
ghost use Rattle.std.specs.Ordering.{int_eq};
ghost use Rattle.spec_value.specs.Datum.{object as object_of};
ghost use Rattle.spec_world.specs.World.{World, object_at};
ghost use Rattle.spec_world.specs.ObjectLaws.{IsPlace};
ghost use Rattle.spec_moo.specs.Natives.Objects.{create_for as create_for_of, create_row, create_with};
ghost use Rattle.rules.specs.Lines.{AreAgreeing};
ghost use Rattle.view.specs.Law.{Goes, Lasts, Tells};
ghost use Rattle.builtins.specs.Led.{Leads};
ghost use Rattle.builtins.specs.Children.{initialized, IsAfter, IsNext};

use crate::builtins_objects::asked::{is_place, is_there, may_both};
use crate::builtins_staged::calling::begins;
use crate::builtins_staged::child::make_child;
use crate::builtins_staged::objects::{one, two};
use moo_task::effect::NativeEffect;
use moo_task::moo_machine::call::Call;
use moo_task::native::{Native, NativeName};
use moo_value::error::MooError;
use moo_value::text::Text;
use moo_value::value::Value;
use rules::permissions::act::Act;
use std::alloc::{AllocError, Global};
use view::law::View;
use view::readers::read_greatest;

// No object has a greater number.
const LAST_NUMBER: i32 = 999_999;

/// `create` for the programmer. `E_INVARG` where the parent is not there, `E_PERM` where the programmer may not have children of it,
/// `E_QUOTA` where there are no more numbers. The verb `initialize` of the new object is called, if there is one.
pub fn create<V: View>(
    alloc: Global,
    view: &mut V,
    call: &Call,
    parent: i32,
) -> Result<NativeEffect, AllocError>
    requires home { V.holds view.old (V.home view.old) }
    requires well_formed { AreAgreeing V.holds V.now view.old }
    ensures lasts { Lasts V.holds V.home V.anchor view.old view.new result }
    ensures left { IfOk result (λ e. Goes V.holds V.now view.old view.new
        (λ before after. Leads (λ s c. create_row s c (object_of parent ∷ [])) before after call.now e)) }
    ensures well_formed { OnOk result (AreAgreeing V.holds V.now view.new) }
{
    let there = is_place(view, parent)?;
    if !there {
        return Ok(NativeEffect::Answers(Err(MooError::InvalidArgument)));
    }
    let arguments = one(alloc, parent)?;
    let effect = create_allowed(alloc, view, call, parent, call.programmer, arguments)?;
    Ok(effect)
}

/// `create` for an owner. `E_INVARG` where the owner is not there either, `E_PERM` where the programmer may not give to it.
pub fn create_for<V: View>(
    alloc: Global,
    view: &mut V,
    call: &Call,
    parent: i32,
    owner: i32,
) -> Result<NativeEffect, AllocError>
    requires home { V.holds view.old (V.home view.old) }
    requires well_formed { AreAgreeing V.holds V.now view.old }
    ensures lasts { Lasts V.holds V.home V.anchor view.old view.new result }
    ensures left { IfOk result (λ e. Goes V.holds V.now view.old view.new
        (λ before after. Leads (λ s c. create_row s c (object_of parent ∷ object_of owner ∷ [])) before after call.now e)) }
    ensures well_formed { OnOk result (AreAgreeing V.holds V.now view.new) }
{
    let there = is_place_and_there(view, parent, owner)?;
    if !there {
        return Ok(NativeEffect::Answers(Err(MooError::InvalidArgument)));
    }
    let arguments = two(alloc, parent, owner)?;
    let effect = create_allowed(alloc, view, call, parent, owner, arguments)?;
    Ok(effect)
}

fn is_place_and_there<V: View>(view: &mut V, parent: i32, owner: i32) -> Result<bool, AllocError>
    requires home { V.holds view.old (V.home view.old) }
    ensures lasts { Lasts V.holds V.home V.anchor view.old view.new result }
    ensures left { IfOk result (λ b. Tells V.holds V.now view.old view.new
        (λ w. ((int_eq parent (neg_ℤ (pos 1)) || is_some (object_at w parent)) && is_some (object_at w owner)) ≡ b)) }
{
    if !is_place(view, parent)? {
        return Ok(false);
    }
    is_there(view, owner)
}

// Below a parent that is there, or nobody.
fn create_allowed<V: View>(
    alloc: Global,
    view: &mut V,
    call: &Call,
    parent: i32,
    owner: i32,
    arguments: Vec<Value>,
) -> Result<NativeEffect, AllocError>
    requires home { V.holds view.old (V.home view.old) }
    requires well_formed { AreAgreeing V.holds V.now view.old }
    requires place { (w : World) → V.holds view.old w → IsPlace (V.now view.old w) parent }
    ensures lasts { Lasts V.holds V.home V.anchor view.old view.new result }
    ensures left { IfOk result (λ e. Goes V.holds V.now view.old view.new
        (λ before after. Leads (λ s c. create_for_of s c parent owner arguments.items) before after call.now e)) }
    ensures well_formed { OnOk result (AreAgreeing V.holds V.now view.new) }
{
    let allowed = may_both(
        view,
        call.programmer,
        &Act::HaveChild(parent),
        &Act::ChangeOwner(call.programmer, owner),
    )?;
    if !allowed {
        return Ok(NativeEffect::Answers(Err(MooError::PermissionDenied)));
    }
    let number = next_number(view)?;
    let Some(number) = number else {
        return Ok(NativeEffect::Answers(Err(MooError::LimitExceeded)));
    };
    let effect = create_under(alloc, view, call, parent, owner, number, arguments)?;
    Ok(effect)
}

// Under the next number.
fn create_under<V: View>(
    alloc: Global,
    view: &mut V,
    call: &Call,
    parent: i32,
    owner: i32,
    number: i32,
    arguments: Vec<Value>,
) -> Result<NativeEffect, AllocError>
    requires home { V.holds view.old (V.home view.old) }
    requires well_formed { AreAgreeing V.holds V.now view.old }
    requires place { (w : World) → V.holds view.old w → IsPlace (V.now view.old w) parent }
    requires next { (w : World) → V.holds view.old w → IsNext (V.now view.old w) (Some number) }
    ensures lasts { Lasts V.holds V.home V.anchor view.old view.new result }
    ensures left { IfOk result (λ e. Goes V.holds V.now view.old view.new
        (λ before after. Leads (λ s c. create_with s c parent owner arguments.items) before after call.now e)) }
    ensures well_formed { OnOk result (AreAgreeing V.holds V.now view.new) }
{
    make_child(alloc, view, parent, owner, number)?;
    let effect = initialize(alloc, view, call, number, arguments)?;
    Ok(effect)
}

// The verb of a new object is called, if there is one.
fn initialize<V: View>(
    alloc: Global,
    view: &mut V,
    call: &Call,
    number: i32,
    arguments: Vec<Value>,
) -> Result<NativeEffect, AllocError>
    requires home { V.holds view.old (V.home view.old) }
    requires well_formed { AreAgreeing V.holds V.now view.old }
    ensures lasts { Lasts V.holds V.home V.anchor view.old view.new result }
    ensures left { IfOk result (λ e. Tells V.holds V.now view.old view.new
        (λ w. Leads (λ s c. initialized s c number arguments.items) w w call.now e)) }
{
    let mut arguments = arguments;
    arguments.push(Value::object(number))?;
    let native = Native {
        name: NativeName::Create,
        stage: 1,
        arguments,
    };
    let word = Text::from_str(alloc, "initialize")?;
    let begun = begins(view, call, native, number, word, Vec::new(alloc))?;
    match begun {
        Some(effect) => Ok(effect),
        None => Ok(NativeEffect::Answers(Ok(Value::object(number)))),
    }
}

// The number of the next object, if there is one.
fn next_number<V: View>(view: &mut V) -> Result<Option<i32>, AllocError>
    ensures lasts { Lasts V.holds V.home V.anchor view.old view.new result }
    ensures left { IfOk result (λ n. Tells V.holds V.now view.old view.new (λ w. IsNext w n)) }
{
    let greatest = read_greatest(view)?;
    Ok(number_after(greatest))
}

fn number_after(greatest: i32) -> Option<i32>
    ensures { IsAfter greatest result }
{
    if greatest >= LAST_NUMBER {
        return None;
    }
    Some(greatest + 1)
}
