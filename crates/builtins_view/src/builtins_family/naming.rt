//! Whether a property may be defined under a name.
ghost use Rattle.std.specs.Prelude.{◌≡◌, ◌&&◌, not, is_none, ℤ, List, IfOk};
ghost use Rattle.spec_world.specs.World.{World};
ghost use Rattle.spec_world.specs.Inherit.{slot_at};
ghost use Rattle.spec_moo.specs.Properties.{built_in};
ghost use Rattle.spec_moo.specs.Natives.Properties.{is_empty as is_empty_of};
ghost use Rattle.view.specs.Law.{Lasts, Tells};
ghost use Rattle.builtins_view.specs.Slots.{among_names, any_defines};
ghost use Rattle.spec_world.specs.Questions.{defines_at};

use crate::builtins_world::properties::has_name;
use moo_value::text::Text;
use std::alloc::AllocError;
use view::built_in::named;
use view::law::View;
use view::readers::{read_defines, read_slot};

/// Whether a name is neither empty nor built in, and an object and all below it, which are these, have no such property.
pub fn is_new_name<V: View>(
    view: &mut V,
    object: i32,
    family: &[i32],
    name: &Text,
) -> Result<bool, AllocError>
    requires home { V.holds view.old (V.home view.old) }
    ensures lasts { Lasts V.holds V.home V.anchor view.old view.new result }
    ensures left { IfOk result (λ b. Tells V.holds V.now view.old view.new (λ w.
        (not (is_empty_of name.now) && is_none (built_in name.now) && is_none (slot_at w object name.now) && not (any_defines w name.now family.now)) ≡ b)) }
{
    if !is_free(name.as_str()) {
        return Ok(false);
    }
    if read_slot(view, object, name)?.is_some() {
        return Ok(false);
    }
    let defined = is_defined_by_any(view, family, name)?;
    Ok(!defined)
}

// Neither empty nor built in.
fn is_free(name: &str) -> bool
    ensures { result ≡ (not (is_empty_of name.now) && is_none (built_in name.now)) }
{
    !name.is_empty() && named(name).is_none()
}

fn is_defined_by_any<V: View>(
    view: &mut V,
    objects: &[i32],
    name: &Text,
) -> Result<bool, AllocError>
    requires home { V.holds view.old (V.home view.old) }
    ensures lasts { Lasts V.holds V.home V.anchor view.old view.new result }
    ensures left { IfOk result (λ b. Tells V.holds V.now view.old view.new (λ w. any_defines w name.now objects.now ≡ b)) }
{
    for object in objects {
        if is_defined_by(view, *object, name)? {
            return Ok(true);
        }
    }
    Ok(false)
}

fn is_defined_by<V: View>(view: &mut V, object: i32, name: &Text) -> Result<bool, AllocError>
    ensures lasts { Lasts V.holds V.home V.anchor view.old view.new result }
    ensures left { IfOk result (λ b. Tells V.holds V.now view.old view.new (λ w. among_names (defines_at w object) name.now ≡ b)) }
{
    match read_defines(view, object)? {
        Some(names) => Ok(has_name(names.as_slice(), name)),
        None => Ok(false),
    }
}
