//! Objects that move (Programmer's Manual, `move()`).
ghost use Rattle.std.specs.Prelude.{◌≡◌, ◌∷◌, [], ◌&&◌, ◌||◌, is_some, option_map, codes, IfOk, OnOk};
ghost use Rattle.std.specs.Ordering.{int_eq};
ghost use Rattle.spec_value.specs.Datum.{object as object_of, item, no_data};
ghost use Rattle.spec_world.specs.World.{World, move_native, object_at};
ghost use Rattle.spec_world.specs.Naming.{location_of};
ghost use Rattle.spec_world.specs.Permissions.{is_wizard as is_wizard_of};
ghost use Rattle.spec_moo.specs.Natives.Objects.{accepted as accepted_of, asked, gone_over as gone_over_of, move_now as move_now_of, move_row, stage, told_to_enter as told_to_enter_of};
ghost use Rattle.moo_value.specs.Errors.{code_of};
ghost use Rattle.rules.specs.Lines.{AreAgreeing};
ghost use Rattle.view.specs.Law.{Goes, Lasts, Tells};
ghost use Rattle.builtins.specs.Verdict.{verdict};
ghost use Rattle.builtins.specs.Led.{Leads, MayBegin};
ghost use Rattle.builtins.specs.Moves.{first_checks, later_checks, MayMove};

use crate::builtins_objects::asked::{are_there, is_there};
use crate::builtins_staged::calling::begins;
use crate::builtins_staged::objects::{one, three, two};
use crate::builtins_staged::places::{go_over, is_in, is_inside, location};
use moo_task::effect::NativeEffect;
use moo_task::moo_machine::call::Call;
use moo_task::native::{Native, NativeName};
use moo_value::error::MooError;
use moo_value::text::Text;
use moo_value::value::Value;
use rules::permissions::act::Act;
use rules::permissions::may::{is_wizard, may};
use std::alloc::{AllocError, Global};
use view::law::View;
use view::readers::read_header;

/// `move`. `E_INVARG` where the object is not there, or the place is not, `E_PERM` where the programmer may not change the object,
/// `E_RECMOVE` where the place is inside of it. The verb `accept` of the place is called, if there is one.
pub fn move_object<V: View>(
    alloc: Global,
    view: &mut V,
    call: &Call,
    what: i32,
    place: i32,
) -> Result<NativeEffect, AllocError>
    requires home { V.holds view.old (V.home view.old) }
    requires well_formed { AreAgreeing V.holds V.now view.old }
    ensures lasts { Lasts V.holds V.home V.anchor view.old view.new result }
    ensures left { IfOk result (λ e. Goes V.holds V.now view.old view.new
        (λ before after. Leads (λ s c. move_row s c (object_of what ∷ object_of place ∷ [])) before after call.now e)) }
    ensures well_formed { OnOk result (AreAgreeing V.holds V.now view.new) }
{
    let refused = first_refusal(view, call.programmer, what, place)?;
    if let Some(error) = refused {
        return Ok(NativeEffect::Answers(Err(error)));
    }
    let effect = ask_place(alloc, view, call, what, place)?;
    Ok(effect)
}

// The place is asked whether it lets an object in, if there is one.
fn ask_place<V: View>(
    alloc: Global,
    view: &mut V,
    call: &Call,
    what: i32,
    place: i32,
) -> Result<NativeEffect, AllocError>
    requires home { V.holds view.old (V.home view.old) }
    requires well_formed { AreAgreeing V.holds V.now view.old }
    requires may_move { (w : World) → V.holds view.old w → MayMove (V.now view.old w) what place }
    ensures lasts { Lasts V.holds V.home V.anchor view.old view.new result }
    ensures left { IfOk result (λ e. Goes V.holds V.now view.old view.new
        (λ before after. Leads (λ s c. asked s c what place) before after call.now e)) }
    ensures well_formed { OnOk result (AreAgreeing V.holds V.now view.new) }
{
    let there = is_there(view, place)?;
    if !there {
        let moved = move_now(alloc, view, call, what, place)?;
        return Ok(moved);
    }
    let begun = accept(alloc, view, call, what, place)?;
    if let Some(effect) = begun {
        return Ok(effect);
    }
    let answered = accepted(alloc, view, call, what, place, false)?;
    Ok(answered)
}

// The call by which a place is asked, if it has a verb for that.
fn accept<V: View>(
    alloc: Global,
    view: &mut V,
    call: &Call,
    what: i32,
    place: i32,
) -> Result<Option<NativeEffect>, AllocError>
    requires home { V.holds view.old (V.home view.old) }
    requires well_formed { AreAgreeing V.holds V.now view.old }
    ensures lasts { Lasts V.holds V.home V.anchor view.old view.new result }
    ensures left { IfOk result (λ m. Tells V.holds V.now view.old view.new
        (λ w. MayBegin (stage move_native (object_of what ∷ object_of place ∷ [])) place (codes "accept") (item (object_of what) no_data) w call.now m)) }
{
    let arguments = two(alloc, what, place)?;
    let native = Native {
        name: NativeName::Move,
        stage: 1,
        arguments,
    };
    let word = Text::from_str(alloc, "accept")?;
    let given = one(alloc, what)?;
    let begun = begins(view, call, native, place, word, given)?;
    Ok(begun)
}

/// `move` goes on after the place has let the object in, or not. `E_NACC` where it has not and the programmer is no wizard, and the
/// first errors, but for `E_PERM`, once more. The verb `exitfunc` of the place that was left is called, if there is one.
pub fn accepted<V: View>(
    alloc: Global,
    view: &mut V,
    call: &Call,
    what: i32,
    place: i32,
    let_in: bool,
) -> Result<NativeEffect, AllocError>
    requires home { V.holds view.old (V.home view.old) }
    requires well_formed { AreAgreeing V.holds V.now view.old }
    ensures lasts { Lasts V.holds V.home V.anchor view.old view.new result }
    ensures left { IfOk result (λ e. Goes V.holds V.now view.old view.new
        (λ before after. Leads (λ s c. accepted_of s c what place let_in) before after call.now e)) }
    ensures well_formed { OnOk result (AreAgreeing V.holds V.now view.new) }
{
    let welcome = is_welcome(view, call.programmer, let_in)?;
    if !welcome {
        return Ok(NativeEffect::Answers(Err(MooError::MoveRefused)));
    }
    let refused = later_refusal(view, what, place)?;
    if let Some(error) = refused {
        return Ok(NativeEffect::Answers(Err(error)));
    }
    let effect = move_now(alloc, view, call, what, place)?;
    Ok(effect)
}

fn is_welcome<V: View>(view: &mut V, programmer: i32, let_in: bool) -> Result<bool, AllocError>
    ensures lasts { Lasts V.holds V.home V.anchor view.old view.new result }
    ensures left { IfOk result (λ b. Tells V.holds V.now view.old view.new (λ w. (let_in || is_wizard_of w programmer) ≡ b)) }
{
    let wizard = is_wizard(view, programmer)?;
    Ok(let_in || wizard)
}

// An object goes over, unless it is there, and the place that was left is told.
fn move_now<V: View>(
    alloc: Global,
    view: &mut V,
    call: &Call,
    what: i32,
    place: i32,
) -> Result<NativeEffect, AllocError>
    requires home { V.holds view.old (V.home view.old) }
    requires well_formed { AreAgreeing V.holds V.now view.old }
    requires may_move { (w : World) → V.holds view.old w → MayMove (V.now view.old w) what place }
    ensures lasts { Lasts V.holds V.home V.anchor view.old view.new result }
    ensures left { IfOk result (λ e. Goes V.holds V.now view.old view.new
        (λ before after. Leads (λ s c. move_now_of s c what place) before after call.now e)) }
    ensures well_formed { OnOk result (AreAgreeing V.holds V.now view.new) }
{
    let before = location(view, what)?;
    if before == place {
        return Ok(NativeEffect::Answers(Ok(Value::integer(0))));
    }
    go_over(alloc, view, what, before, place)?;
    let effect = tell_left(alloc, view, call, what, place, before)?;
    Ok(effect)
}

// The place that was left is told, and then the new one.
fn tell_left<V: View>(
    alloc: Global,
    view: &mut V,
    call: &Call,
    what: i32,
    place: i32,
    before: i32,
) -> Result<NativeEffect, AllocError>
    requires home { V.holds view.old (V.home view.old) }
    requires well_formed { AreAgreeing V.holds V.now view.old }
    ensures lasts { Lasts V.holds V.home V.anchor view.old view.new result }
    ensures left { IfOk result (λ e. Tells V.holds V.now view.old view.new
        (λ w. Leads (λ s c. gone_over_of s c what place before) w w call.now e)) }
{
    let arguments = three(alloc, what, place, before)?;
    let native = Native {
        name: NativeName::Move,
        stage: 2,
        arguments,
    };
    let word = Text::from_str(alloc, "exitfunc")?;
    let given = one(alloc, what)?;
    let begun = begins(view, call, native, before, word, given)?;
    if let Some(effect) = begun {
        return Ok(effect);
    }
    let told = told_to_enter(alloc, view, call, what, place, before)?;
    Ok(told)
}

/// `move` goes on after the place that was left was told: the verb `enterfunc` of the new one is called, if there is one and the
/// object is there.
pub fn told_to_enter<V: View>(
    alloc: Global,
    view: &mut V,
    call: &Call,
    what: i32,
    place: i32,
    before: i32,
) -> Result<NativeEffect, AllocError>
    requires home { V.holds view.old (V.home view.old) }
    requires well_formed { AreAgreeing V.holds V.now view.old }
    ensures lasts { Lasts V.holds V.home V.anchor view.old view.new result }
    ensures left { IfOk result (λ e. Tells V.holds V.now view.old view.new
        (λ w. Leads (λ s c. told_to_enter_of s c what place before) w w call.now e)) }
    ensures well_formed { OnOk result (AreAgreeing V.holds V.now view.new) }
{
    let entered = has_entered(view, what, place)?;
    if !entered {
        return Ok(NativeEffect::Answers(Ok(Value::integer(0))));
    }
    let arguments = three(alloc, what, place, before)?;
    let native = Native {
        name: NativeName::Move,
        stage: 3,
        arguments,
    };
    let word = Text::from_str(alloc, "enterfunc")?;
    let given = one(alloc, what)?;
    let begun = begins(view, call, native, place, word, given)?;
    if let Some(effect) = begun {
        return Ok(effect);
    }
    Ok(NativeEffect::Answers(Ok(Value::integer(0))))
}

// Whether an object is in a place, and both are there.
fn has_entered<V: View>(view: &mut V, what: i32, place: i32) -> Result<bool, AllocError>
    requires home { V.holds view.old (V.home view.old) }
    ensures lasts { Lasts V.holds V.home V.anchor view.old view.new result }
    ensures left { IfOk result (λ b. Tells V.holds V.now view.old view.new
        (λ w. (is_some (object_at w what) && int_eq (location_of (object_at w what)) place && is_some (object_at w place)) ≡ b)) }
{
    let header = read_header(view, what)?;
    if !is_in(&header, place) {
        return Ok(false);
    }
    is_there(view, place)
}

// Why an object may not be moved, before the place is asked.
fn first_refusal<V: View>(
    view: &mut V,
    programmer: i32,
    what: i32,
    place: i32,
) -> Result<Option<MooError>, AllocError>
    requires home { V.holds view.old (V.home view.old) }
    requires well_formed { AreAgreeing V.holds V.now view.old }
    ensures lasts { Lasts V.holds V.home V.anchor view.old view.new result }
    ensures left { IfOk result (λ e. Tells V.holds V.now view.old view.new
        (λ w. verdict (first_checks w programmer what place) ≡ option_map code_of e)) }
{
    let there = are_there(view, what, place)?;
    if !there {
        return Ok(Some(MooError::InvalidArgument));
    }
    let allowed = may(view, programmer, &Act::ChangeObject(what))?;
    if !allowed {
        return Ok(Some(MooError::PermissionDenied));
    }
    let inside = is_inside(view, what, place)?;
    if inside {
        return Ok(Some(MooError::RecursiveMove));
    }
    Ok(None)
}

// Why it may not be, after the place has answered.
fn later_refusal<V: View>(
    view: &mut V,
    what: i32,
    place: i32,
) -> Result<Option<MooError>, AllocError>
    requires home { V.holds view.old (V.home view.old) }
    requires well_formed { AreAgreeing V.holds V.now view.old }
    ensures lasts { Lasts V.holds V.home V.anchor view.old view.new result }
    ensures left { IfOk result (λ e. Tells V.holds V.now view.old view.new
        (λ w. verdict (later_checks w what place) ≡ option_map code_of e)) }
{
    let there = are_there(view, what, place)?;
    if !there {
        return Ok(Some(MooError::InvalidArgument));
    }
    let inside = is_inside(view, what, place)?;
    if inside {
        return Ok(Some(MooError::RecursiveMove));
    }
    Ok(None)
}
