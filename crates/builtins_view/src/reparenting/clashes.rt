//! Properties that an object or one below it defines, and another one has.
ghost use Rattle.std.specs.Prelude.{◌≡◌, IfOk};
ghost use Rattle.std.specs.List.{list_any};
ghost use Rattle.spec_world.specs.Questions.{defines_at};
ghost use Rattle.view.specs.Law.{Lasts, Tells};
ghost use Rattle.builtins_view.specs.Clashes.{any_clashes as any_clashes_of, any_slot, has_slot};

use moo_value::text::Text;
use std::alloc::AllocError;
use view::law::View;
use view::readers::{read_defines, read_slot};

/// Whether one of these objects defines a property that another one has.
pub fn any_clashes<V: View>(view: &mut V, parent: i32, family: &[i32]) -> Result<bool, AllocError>
    requires home { V.holds view.old (V.home view.old) }
    ensures lasts { Lasts V.holds V.home V.anchor view.old view.new result }
    ensures left { IfOk result (λ b. Tells V.holds V.now view.old view.new (λ w. any_clashes_of w parent family.now ≡ b)) }
{
    for object in family {
        let found = clashes(view, parent, *object)?;
        if found {
            return Ok(true);
        }
    }
    Ok(false)
}

fn clashes<V: View>(view: &mut V, parent: i32, object: i32) -> Result<bool, AllocError>
    requires home { V.holds view.old (V.home view.old) }
    ensures lasts { Lasts V.holds V.home V.anchor view.old view.new result }
    ensures left { IfOk result (λ b. Tells V.holds V.now view.old view.new (λ w. any_slot w parent (defines_at w object) ≡ b)) }
{
    let Some(names) = read_defines(view, object)? else {
        return Ok(false);
    };
    let found = has_any(view, parent, names.as_slice())?;
    Ok(found)
}

fn has_any<V: View>(view: &mut V, object: i32, names: &[Text]) -> Result<bool, AllocError>
    requires home { V.holds view.old (V.home view.old) }
    ensures lasts { Lasts V.holds V.home V.anchor view.old view.new result }
    ensures left { IfOk result (λ b. Tells V.holds V.now view.old view.new (λ w. list_any (has_slot w object) names.now ≡ b)) }
{
    for name in names {
        if read_slot(view, object, name)?.is_some() {
            return Ok(true);
        }
    }
    Ok(false)
}
