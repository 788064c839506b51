//! What is asked of a world before it is changed.
ghost use Rattle.std.specs.Prelude.{◌≡◌, is_some, IfOk};
ghost use Rattle.spec_world.specs.World.{object_at};
ghost use Rattle.view.specs.Law.{Lasts, Tells};

use std::alloc::AllocError;
use view::law::View;
use view::readers::read_header;

/// Whether an object is there.
pub fn is_there<V: View>(view: &mut V, object: i32) -> Result<bool, AllocError>
    ensures lasts { Lasts V.holds V.home V.anchor view.old view.new result }
    ensures left { IfOk result (λ b. Tells V.holds V.now view.old view.new (λ w. is_some (object_at w object) ≡ b)) }
{
    let header = read_header(view, object)?;
    Ok(header.is_some())
}
